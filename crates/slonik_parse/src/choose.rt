// What a word begins: a command, an option, or one that is left out.
ghost use Rattle.std.specs.Prelude.{◌≡◌, map};
ghost use Rattle.slonik_parse.specs.Choices as choice;

use crate::form::{OptionName, Verb};
use slonik_tokens::Token;

/// Whether the tokens begin with these words.
fn begin_with(words: &[&str], tokens: &[Token]) -> bool
    ensures { result ≡ choice.begins_with (map (λ word. word.now) words.now) tokens.now }
{
    let Some((word, words)) = words.split_first() else {
        return true;
    };
    let Some((token, tokens)) = tokens.split_first() else {
        return false;
    };
    token.is_word(word.as_bytes()) && begin_with(words, tokens)
}

/// Whether a command that is left out begins here.
#[tactic(auto, unfolding(crate::specs::Choices::is_left_out))]
pub fn is_left_out(tokens: &[Token]) -> bool
    ensures { result ≡ choice.is_left_out tokens.now }
{
    begin_with(&["clone", "prepare"], tokens)
        || begin_with(&["clone", "finish"], tokens)
        || begin_with(&["execute", "script"], tokens)
        || begin_with(&["repair", "config"], tokens)
        || begin_with(&["restart", "node"], tokens)
        || begin_with(&["update", "functions"], tokens)
        || begin_with(&["uninstall", "node"], tokens)
        || begin_with(&["store", "listen"], tokens)
        || begin_with(&["drop", "listen"], tokens)
        || begin_with(&["merge", "set"], tokens)
        || begin_with(&["set", "add", "sequence"], tokens)
        || begin_with(&["set", "drop", "sequence"], tokens)
        || begin_with(&["set", "drop", "table"], tokens)
        || begin_with(&["set", "move", "sequence"], tokens)
        || begin_with(&["set", "move", "table"], tokens)
}

/// Whether a command begins here that is not allowed in a try block.
#[tactic(auto, unfolding(crate::specs::Choices::is_not_in_try))]
pub fn is_not_in_try(tokens: &[Token]) -> bool
    ensures { result ≡ choice.is_not_in_try tokens.now }
{
    begin_with(&["wait", "for", "event"], tokens)
        || begin_with(&["sleep"], tokens)
        || begin_with(&["echo"], tokens)
        || begin_with(&["exit"], tokens)
        || begin_with(&["failover"], tokens)
        || begin_with(&["try"], tokens)
}

/// Whether an option that is left out begins here, in a command of this verb.
#[tactic(auto, unfolding(crate::specs::Choices::is_option_left_out))]
pub fn is_option_left_out(verb: Verb, tokens: &[Token]) -> bool
    ensures { result ≡ choice.is_option_left_out verb tokens.now }
{
    match verb {
        Verb::SubscribeSet => begin_with(&["omit", "copy"], tokens),
        Verb::SetAddTable => {
            begin_with(&["tables"], tokens) || begin_with(&["add", "sequences"], tokens)
        }
        _ => false,
    }
}

/// Whether the second of the tokens is this word.
#[tactic(auto, unfolding(crate::specs::Choices::goes_on_with))]
fn goes_on_with(word: &str, tokens: &[Token]) -> bool
    ensures { result ≡ choice.goes_on_with word.now tokens.now }
{
    match tokens {
        [_, second, ..] => second.is_word(word.as_bytes()),
        _ => false,
    }
}

/// The command on a store, by its second word. Where that is none of theirs, whichever: the script goes wrong there.
#[tactic(auto, unfolding(crate::specs::Choices::store_at))]
fn store_at(tokens: &[Token]) -> Verb
    ensures { result ≡ choice.store_at tokens.now }
{
    if goes_on_with("path", tokens) {
        Verb::StorePath
    } else {
        Verb::StoreNode
    }
}

/// The command that drops something, by its second word.
#[tactic(auto, unfolding(crate::specs::Choices::drop_at))]
fn drop_at(tokens: &[Token]) -> Verb
    ensures { result ≡ choice.drop_at tokens.now }
{
    if goes_on_with("path", tokens) {
        Verb::DropPath
    } else if goes_on_with("set", tokens) {
        Verb::DropSet
    } else {
        Verb::DropNode
    }
}

/// The command on sets that begins with this token.
#[tactic(auto, unfolding(crate::specs::Choices::set_verb_at))]
fn set_verb_at(token: &Token) -> Option<Verb>
    ensures { result ≡ choice.set_verb_at token.now }
{
    if token.is_word(b"create") {
        Some(Verb::CreateSet)
    } else if token.is_word(b"set") {
        Some(Verb::SetAddTable)
    } else if token.is_word(b"subscribe") {
        Some(Verb::SubscribeSet)
    } else if token.is_word(b"unsubscribe") {
        Some(Verb::UnsubscribeSet)
    } else if token.is_word(b"lock") {
        Some(Verb::LockSet)
    } else if token.is_word(b"unlock") {
        Some(Verb::UnlockSet)
    } else if token.is_word(b"move") {
        Some(Verb::MoveSet)
    } else {
        None
    }
}

/// The command with options that begins with this token, which is the first of the tokens.
#[tactic(auto, unfolding(crate::specs::Choices::verb_at))]
pub fn verb_at(token: &Token, tokens: &[Token]) -> Option<Verb>
    ensures { result ≡ choice.verb_at token.now tokens.now }
{
    if token.is_word(b"init") {
        Some(Verb::InitCluster)
    } else if token.is_word(b"store") {
        Some(store_at(tokens))
    } else if token.is_word(b"drop") {
        Some(drop_at(tokens))
    } else if token.is_word(b"failover") {
        Some(Verb::Failover)
    } else if token.is_word(b"sync") {
        Some(Verb::Sync)
    } else if token.is_word(b"wait") {
        Some(Verb::WaitForEvent)
    } else if token.is_word(b"sleep") {
        Some(Verb::Sleep)
    } else {
        set_verb_at(token)
    }
}

/// Whether the option begins with this token.
#[tactic(auto, unfolding(crate::specs::Choices::begins_option))]
fn begins_option(option: OptionName, token: &Token) -> bool
    ensures { result ≡ choice.begins_option token.now option }
{
    match option.words().first() {
        Some(word) => token.is_word(word.as_bytes()),
        None => false,
    }
}

/// The option of the command that begins with this token.
#[tactic(auto, unfolding(crate::specs::Choices::option_at))]
pub fn option_at(verb: Verb, token: &Token) -> Option<OptionName>
    ensures { result ≡ choice.option_at verb token.now }
{
    for option in verb.options() {
        if begins_option(*option, token) {
            return Some(*option);
        }
    }
    None
}
