// Where labels and procedures stand.
ghost use Rattle.std.specs.Prelude.{IfOk, ◌≡◌};
ghost use Rattle.word_runner.specs.Books.{AreAllLabels, AreLabels, AreNumbers, IsBooks, labels_at};
ghost use Rattle.word_runner.specs.View.{held_in};

use crate::vars::{held_at, hold};
use arc_base::Memory;
use std::alloc::Global;
use word_code::{WordInstr, WordProc};

/// For each procedure the position of the first line with each label, and the position of the first
/// procedure with each number.
#[derive(Drop)]
pub struct Books {
    pub labels: Vec<Vec<Option<usize>>>,
    pub numbers: Vec<Option<usize>>,
}

// The position of the first line with each label.
fn labels_of(alloc: Global, lines: &[WordInstr]) -> Result<Vec<Option<usize>>, Memory>
    ensures { IfOk result (λ labels. AreLabels lines.now labels.items) }
{
    let mut labels = Vec::new(alloc);
    let mut i = lines.len();
    while i > 0 {
        i -= 1;
        if let WordInstr::Label { name } = lines[i] {
            hold(&mut labels, name as usize, i)?;
        }
    }
    Ok(labels)
}

// That of all procedures.
fn all_labels_of(alloc: Global, procs: &[WordProc]) -> Result<Vec<Vec<Option<usize>>>, Memory>
    ensures { IfOk result (λ labels. AreAllLabels procs.now labels.items) }
{
    let mut labels = Vec::new(alloc);
    for proc in procs {
        let one = labels_of(alloc, proc.lines.as_slice())?;
        labels.push(one)?;
    }
    Ok(labels)
}

// The position of the first procedure with each number.
fn numbers_of(alloc: Global, procs: &[WordProc]) -> Result<Vec<Option<usize>>, Memory>
    ensures { IfOk result (λ numbers. AreNumbers procs.now numbers.items) }
{
    let mut numbers = Vec::new(alloc);
    let mut i = procs.len();
    while i > 0 {
        i -= 1;
        hold(&mut numbers, procs[i].number as usize, i)?;
    }
    Ok(numbers)
}

/// What is found out of procedures before they run.
pub fn books_of(alloc: Global, procs: &[WordProc]) -> Result<Books, Memory>
    ensures { IfOk result (λ books. IsBooks procs.now books) }
{
    let labels = all_labels_of(alloc, procs)?;
    let numbers = numbers_of(alloc, procs)?;
    Ok(Books { labels, numbers })
}

impl Books {
    /// The position of the first line of a procedure with a label.
    #[inline(always)]
    pub fn label(&self, proc: usize, name: u32) -> Option<usize>
        ensures { result ≡ held_in (labels_at self.now proc) name }
    {
        match self.labels.get(proc) {
            None => None,
            Some(labels) => held_at(labels, name as usize),
        }
    }

    /// The position of the procedure that has a number.
    #[inline(always)]
    pub fn number(&self, number: u32) -> Option<usize>
        ensures { result ≡ held_in self.now.numbers.items number }
    {
        held_at(&self.numbers, number as usize)
    }
}
