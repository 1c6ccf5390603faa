// What the printed form tells.
ghost use Rattle.std.specs.Prelude.{◌≡◌, List};
ghost use Rattle.std.specs.List.{AllByRecursion};
ghost use Rattle.slon_model.specs.declared.reply.Reply.{Reply};
ghost use Rattle.slon_model.specs.Printed.{reply_text};
ghost use Rattle.session_text.specs.Replies.{HasForm, lines_text};

/// Two replies that print alike are one reply.
pub fn printing_is_injective()
    ensures { (a b : Reply) → HasForm a → HasForm b → reply_text a ≡ reply_text b → a ≡ b }
{}

/// Two lists of replies whose lines print alike are one list.
pub fn outputs_are_injective()
    ensures { (a b : List Reply) → AllByRecursion HasForm a → AllByRecursion HasForm b →
        lines_text a ≡ lines_text b → a ≡ b }
{}
