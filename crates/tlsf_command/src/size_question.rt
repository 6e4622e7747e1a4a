ghost use Rattle.std.specs.Prelude.{◌≡◌, length, map, IfOk};
ghost use Rattle.std.specs.Option.{option_map_or};
ghost use Rattle.tlsf_command.specs.Arguments.{texts_of};
ghost use Rattle.tlsf_command.specs.SizeQuestions.{kinds_in, IsOfTexts, IsQuestion};

use crate::arguments::{is_given, number_given, number_of};
use clap::ArgMatches;
use std::alloc::{AllocError, Global};
use tlsf_pool::Kind;

/// The most kinds of request that a command line may give.
pub const MOST_KINDS: usize = 64;

/// The question that `tlsf size` is asked.
#[derive(Drop)]
pub enum SizeQuestion {
    /// The words at level 4 for these kinds of request, 1 to [`MOST_KINDS`]: one for each pair of `--blocks` and `--bytes`, in
    /// their order.
    Table(Vec<Kind>),
    /// Those at level 5.
    FineTable(Vec<Kind>),
    /// The words of several heaps, to which such kinds are given at level 4.
    Split(Vec<Kind>),
    /// Those at level 5.
    FineSplit(Vec<Kind>),
    /// No table: `--blocks` is given this many times, and `--bytes` that many times.
    Unpaired(usize, usize),
}

// The kinds of as many numbers of blocks as of bytes, the i-th of these with the i-th of those.
fn kinds_of(alloc: Global, blocks: &[&str], bytes: &[&str]) -> Result<Vec<Kind>, AllocError>
    requires { length blocks.now ≡ length bytes.now }
    ensures { IfOk result (λ kinds. kinds.items ≡ kinds_in (map (λ text. text.now) blocks.now) (map (λ text. text.now) bytes.now)) }
{
    let mut kinds = Vec::new(alloc);
    for index in 0..blocks.len() {
        kinds.push(Kind {
            most: number_of(blocks[index]),
            len: number_of(bytes[index]),
        })?;
    }
    Ok(kinds)
}

// How many texts were given.
fn count_of(texts: Option<&[&str]>) -> usize
    ensures { result ≡ option_map_or (λ given. length given.now) texts.entry 0 }
{
    match texts {
        Some(texts) => texts.len(),
        None => 0,
    }
}

impl SizeQuestion {
    // The question of this many texts after `--blocks` and after `--bytes` at a level, for several heaps or for one.
    fn of_texts(
        alloc: Global,
        blocks: &[&str],
        bytes: &[&str],
        level: u32,
        split: bool,
    ) -> Result<SizeQuestion, AllocError>
        ensures { IfOk result (IsOfTexts (map (λ text. text.now) blocks.now) (map (λ text. text.now) bytes.now) level split) }
    {
        if blocks.len() == bytes.len() && !blocks.is_empty() && blocks.len() <= MOST_KINDS {
            let kinds = kinds_of(alloc, blocks, bytes)?;
            return Ok(match (level == 5, split) {
                (false, false) => SizeQuestion::Table(kinds),
                (true, false) => SizeQuestion::FineTable(kinds),
                (false, true) => SizeQuestion::Split(kinds),
                (true, true) => SizeQuestion::FineSplit(kinds),
            });
        }
        Ok(SizeQuestion::Unpaired(blocks.len(), bytes.len()))
    }

    /// The question of what the matches of `size` give. An `Err` says that memory ran out.
    ///
    /// ```
    /// // of "--blocks 100 --bytes 64 --blocks 4 --bytes 4096"
    /// let question = SizeQuestion::given(alloc, &matches)?;
    /// // question is about the table of 100 blocks of 64 bytes and 4 of 4096, at level 4, for one heap
    /// ```
    pub fn given(alloc: Global, given: &ArgMatches<'_>) -> Result<SizeQuestion, AllocError>
        ensures { IfOk result (IsQuestion (texts_of given.now)) }
    {
        let level = number_given(given, "level", 4);
        let split = is_given(given, "split");
        match (given.get_raw("B"), given.get_raw("N")) {
            (Some(blocks), Some(bytes)) => {
                SizeQuestion::of_texts(alloc, blocks, bytes, level, split)
            }
            (blocks, bytes) => Ok(SizeQuestion::Unpaired(count_of(blocks), count_of(bytes))),
        }
    }
}
