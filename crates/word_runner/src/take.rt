// More input is taken.
ghost use Rattle.rv32_runner.specs.Streams.{feed};
ghost use Rattle.word_runner.specs.Takes.{Took};

use crate::state::Run;
use arc_base::Source;

// As many bytes at most are taken from the source at once.
const PIECE: usize = 4096;

/// How taking more input went.
#[derive(Clone, Copy)]
pub enum Taken {
    /// More is there, or no more comes.
    More,
    Failed,
    /// No memory was found.
    Memory,
}

/// What one take gives comes behind what was taken.
pub fn take_more<I: Source>(run: &mut Run, input: &mut I) -> Taken
    ensures { Took run.old result run.new
        (feed (I.left input.old) (I.ended input.old) (I.faults input.old) (I.gave input.old))
        (feed (I.left input.new) (I.ended input.new) (I.faults input.new) (I.gave input.new)) }
{
    let mut piece = [0; PIECE];
    match input.take(&mut piece) {
        Err(_) => Taken::Failed,
        Ok(count) => {
            if count == 0 {
                run.input.ended = true;
                return Taken::More;
            }
            match run.input.taken.extend_from_slice(&piece[..count]) {
                Err(_) => Taken::Memory,
                Ok(()) => Taken::More,
            }
        }
    }
}
