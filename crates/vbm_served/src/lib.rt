//! Which of the machine's commands are served, and what a run of them does.
#![tactic(auto)]

ghost use Rattle.std.specs.Prelude.{◌≡◌, [], slice_index_or};
ghost use Rattle.std.specs.Str.{bytes_eq};
ghost use Rattle.vbm_world.specs.declared.command.Command.{Command};
ghost use Rattle.vbm_world.specs.Texts.{words_of};
ghost use Rattle.vbm_served.specs.Served.{is_of_machine, is_served, IsChange};

use vbm_ports::Text;

fn is_at(words: &[Text], index: usize, text: &[u8]) -> bool
    ensures { result ≡ bytes_eq (slice_index_or words.now index []) text.now }
{
    match words.get(index) {
        Some(word) => word.bytes() == text,
        None => text.is_empty(),
    }
}

// Whether words that change a medium give it a mode that is served.
fn is_mode_served(words: &[Text]) -> bool
    ensures { (c : Command) → words.now ≡ words_of c → IsChange c → result ≡ is_served c }
{
    is_at(words, 2, b"--type")
        && (is_at(words, 3, b"normal")
            || is_at(words, 3, b"writethrough")
            || is_at(words, 3, b"readonly"))
}

// Whether words are those of a command that makes, changes or runs a machine.
fn are_of_machine(words: &[Text]) -> bool
    ensures { (c : Command) → words.now ≡ words_of c → result ≡ is_of_machine c }
{
    is_at(words, 0, b"createvm")
        || is_at(words, 0, b"unregistervm")
        || is_at(words, 0, b"storageattach")
        || is_at(words, 0, b"startvm")
        || is_at(words, 0, b"poweroff")
}

/// Whether words, if they are the form of a command, are that of one that is served.
pub fn are_served(words: &[Text]) -> bool
    ensures { (c : Command) → words.now ≡ words_of c → result ≡ is_served c }
{
    if is_at(words, 0, b"modifymedium") {
        return is_mode_served(words);
    }
    are_of_machine(words)
        || is_at(words, 0, b"openmedium")
        || is_at(words, 0, b"closemedium")
        || is_at(words, 0, b"showmediuminfo")
        || is_at(words, 0, b"list")
        || (is_at(words, 0, b"createmedium") && words.len() == 4)
}
