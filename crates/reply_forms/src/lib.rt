//! The law of what replies say. There is no code: the law is what a function of an empty body ensures.
#![tactic(auto)]

ghost use Rattle.reply_forms.specs.Laws.{RepliesHaveForms};

/// Every reply of a legal history of spoken commands has its form, where its numbers are of their types: names are
/// names, tables are tables, keys and values are values, and texts stand on one line. A reply to a command about a
/// script is one of them.
pub fn replies_have_forms()
    ensures { RepliesHaveForms }
{}
