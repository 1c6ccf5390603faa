// What the grammar of scripts leaves no choice in.
ghost use Rattle.std.specs.Prelude.{◌≡◌, List};
ghost use Rattle.slonik_script.specs.declared.refusal.ScriptRefusal.{ScriptRefusal};
ghost use Rattle.slonik_tokens.specs.declared.token.Token.{Token};
ghost use Rattle.slonik_script.specs.declared.script.Script.{Script};
ghost use Rattle.slonik_parse.specs.Grammar.{IsScript};
ghost use Rattle.slonik_parse.specs.Refusals.{Refuses};

/// Tokens are one script or none, are refused in one way or none, and never both.
pub fn one_reading()
    ensures scripts { (tokens : List Token) (one other : Script) → IsScript tokens one → IsScript tokens other
        → one ≡ other }
    ensures refusals { (tokens : List Token) (one other : ScriptRefusal) → Refuses tokens one → Refuses tokens other
        → one ≡ other }
    ensures apart { (tokens : List Token) (script : Script) (refusal : ScriptRefusal) → IsScript tokens script
        → Refuses tokens refusal → ⊥ }
{}
