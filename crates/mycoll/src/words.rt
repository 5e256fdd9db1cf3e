ghost use Rattle.std.specs.Prelude.{◌≡◌, MatchOption, codes};
ghost use Rattle.std.specs.Option.{option_copied};
ghost use Rattle.std.specs.Str.{bytes_eq};
ghost use Rattle.mycoll.specs.Words.{words_form};
ghost use Rattle.mycoll.specs.Words.WordsForm.{file_words, no_form};

use mc_base::{List, NoMemory, Text};
use std::alloc::Global;
use std::env::FillError;
use std::rt::Env;

/// The first size of a word's buffer, in bytes, and how often it is doubled.
const WORD_LEN: usize = 256;

const DOUBLINGS: u32 = 31;

/// The words after the program's name, as their bytes.
pub fn words_of(alloc: Global, rt: &impl Env) -> Result<List<Text>, NoMemory> {
    let mut words = List::new(alloc);
    for i in 1..usize::MAX {
        match read_word(alloc, rt, i)? {
            Some(word) => words.push(word)?,
            None => return Ok(words),
        }
    }
    Ok(words)
}

/// The word at a place of the command line, if there is one.
fn read_word(alloc: Global, rt: &impl Env, i: usize) -> Result<Option<Text>, NoMemory> {
    let mut size = WORD_LEN;
    for _ in 0..DOUBLINGS {
        let mut buffer = vec![in alloc; 0u8; size]?;
        match rt.arg(i, buffer.as_mut_slice()) {
            Ok(len) => return Ok(Some(Text::from_slice(alloc, &buffer.as_slice()[..len])?)),
            Err(FillError::NotPresent) => return Ok(None),
            Err(FillError::TooLong) => size = size.saturating_mul(2),
        }
    }
    Err(NoMemory)
}

/// The files that words name: a catalog, if one is there, and a script.
#[derive(Clone, Copy)]
pub struct FileNames<'a> {
    pub catalog: Option<&'a Text>,
    pub script: &'a Text,
}

/// Whether the word asks for a workload.
fn is_make(word: &Text) -> bool
    ensures { result ≡ bytes_eq word.now (codes "--make") }
{
    word.as_slice() == b"--make".as_slice()
}

/// The files that the words name, where they are of that form: a script, or a catalog and a script.
pub fn named_files(words: &[Text]) -> Option<FileNames<'_>>
    ensures { MatchOption result (words_form words.now ≡ no_form) (λ named. words_form words.now
        ≡ file_words (record {
          catalog = option_copied named.catalog;
          script = named.script.now;
        })) }
{
    match words {
        [script] if !is_make(script) => Some(FileNames {
            catalog: None,
            script,
        }),
        [catalog, script] if !is_make(catalog) => Some(FileNames {
            catalog: Some(catalog),
            script,
        }),
        _ => None,
    }
}
