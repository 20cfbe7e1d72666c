// Owned code as block code, procedure by procedure and line by line.
ghost use Rattle.std.specs.Prelude.{◌≡◌, IfOk, map};
ghost use Rattle.flat_code.specs.declared.block.BlockLine.TheVariants.{Plain};
ghost use Rattle.flat_code.specs.Codes.{each_line};
ghost use Rattle.goto_exceptions.specs.Branches.{IsBranched};

use arc_base::{Items, Memory, agreement};
use flat_code::{BlockLine, Blocks, CodeProc, Owned, OwnedLine, codes, copied};
use std::alloc::Global;

/// Block code does at most so many times the work of the owned code that it is of.
pub const PACE: u32 = 1;

/// It has at most so many lines for each line of the owned code.
pub const LINES_EACH: u32 = 1;

fn block_lines(alloc: Global, lines: &[OwnedLine]) -> Result<Items<BlockLine>, Memory>
    ensures { IfOk result (λ block. block ≡ map Plain lines.now) }
{
    let mut block = Items::new(alloc);
    for line in lines {
        let line = line.copied(alloc)?;
        block.push(BlockLine::Plain(line))?;
    }
    Ok(block)
}

fn block_proc(alloc: Global, proc: &CodeProc<OwnedLine>) -> Result<CodeProc<BlockLine>, Memory>
    ensures { IfOk result (λ block. block ≡ each_line Plain proc.now) }
{
    let places = copied(alloc, proc.places.as_slice())?;
    let lines = block_lines(alloc, proc.lines.as_slice())?;
    Ok(CodeProc {
        first: proc.first,
        span: proc.span,
        places,
        lines,
        hook: proc.hook,
    })
}

fn block_procs(
    alloc: Global,
    procs: &[CodeProc<OwnedLine>],
) -> Result<Items<CodeProc<BlockLine>>, Memory>
    ensures { IfOk result (λ block. block ≡ map (each_line Plain) procs.now) }
{
    let mut block = Items::new(alloc);
    for proc in procs {
        let next = block_proc(alloc, proc)?;
        block.push(next)?;
    }
    Ok(block)
}

/// Block code that does what owned code does, where that is never at a fault.
pub fn branches(alloc: Global, owned: &Owned) -> Result<Blocks, Memory>
    ensures { IfOk result (λ blocks. IsBranched owned.now blocks) }
{
    agreement();
    codes();
    let procs = block_procs(alloc, owned.procs.as_slice())?;
    Ok(Blocks { procs })
}
