ghost use Rattle.std.specs.Prelude.{◌≡◌, map, string_bytes};
ghost use Rattle.av1_rec.specs.Commands.{is_word, word_number, tiles_command, group_command, gen_command, command_of, reads};

use crate::text::fields::{number_in, tag};

/// What the words of a command line ask for.
#[derive(Clone, Copy, Debug, PartialEq, Eq)]
pub enum Command {
    /// The report of a text's frame, coded by `workers` workers.
    Group { workers: u32 },
    /// The tile grid of a text's header.
    Tiles,
    /// The summary of a frame that is generated from a seed and coded by `workers` workers.
    Gen { seed: u32, workers: u32 },
}

fn is_word(text: &[u8], word: &[u8]) -> bool
    ensures { result ≡ is_word word.now text.now }
{
    match tag(text, word) {
        Some(rest) => rest.is_empty(),
        None => false,
    }
}

// The number of 32 bits that a word spells, without sign or leading zero.
#[tactic(auto, unfolding(crate::specs::Commands::word_number))]
fn word_number(text: &[u8]) -> Option<u32>
    ensures { result ≡ word_number text.now }
{
    let (number, rest) = number_in(0, u32::MAX, text)?;
    if rest.is_empty() { Some(number) } else { None }
}

#[tactic(auto, unfolding(crate::specs::Commands::tiles_command))]
fn tiles_command(name: &[u8]) -> Option<Command>
    ensures { result ≡ tiles_command name.now }
{
    if is_word(name, b"tiles") {
        Some(Command::Tiles)
    } else {
        None
    }
}

#[tactic(auto, unfolding(crate::specs::Commands::group_command))]
fn group_command(name: &[u8], workers: &[u8]) -> Option<Command>
    ensures { result ≡ group_command name.now workers.now }
{
    if !is_word(name, b"group") {
        return None;
    }
    let workers = word_number(workers)?;
    Some(Command::Group { workers })
}

#[tactic(auto, unfolding(crate::specs::Commands::gen_command))]
fn gen_command(name: &[u8], seed: &[u8], workers: &[u8]) -> Option<Command>
    ensures { result ≡ gen_command name.now seed.now workers.now }
{
    if !is_word(name, b"gen") {
        return None;
    }
    let seed = word_number(seed)?;
    let workers = word_number(workers)?;
    Some(Command::Gen { seed, workers })
}

impl Command {
    /// The command of the words behind the program's name: `group N`, `tiles` or `gen K N`.
    #[tactic(auto, unfolding(crate::specs::Commands::command_of))]
    pub fn from_words(words: &[String]) -> Option<Command>
        ensures { result ≡ command_of (map string_bytes words.now) }
    {
        match words {
            [name] => tiles_command(name.as_bytes()),
            [name, workers] => group_command(name.as_bytes(), workers.as_bytes()),
            [name, seed, workers] => {
                gen_command(name.as_bytes(), seed.as_bytes(), workers.as_bytes())
            }
            _ => None,
        }
    }

    /// Whether the command reads a text.
    pub fn reads(&self) -> bool
        ensures { result ≡ reads self.now }
    {
        match self {
            Command::Group { .. } | Command::Tiles => true,
            Command::Gen { .. } => false,
        }
    }
}
