// Goes through the lines of a script.
use crate::answer::print_error;
use crate::command::read_call;
use crate::head::{Head, read_head};
use crate::lines::{LINE_MEMORY, as_text, read_line, says_something};
use crate::session::Session;
use crate::words::{Bad, Words};
use sealing::SealingScheme;
use std::alloc::{AllocError, Global};
use std::io;
use std::io::BufRead;
use std::ops::Range;
use token_log::TokenLog;
use token_store::TokenStore;

// What is left of a script: the input, the memory for a line of it, the numbers of the lines to come, from 1, and the heap for
// what a line says.
#[derive(Drop)]
pub(crate) struct Script<R> {
    pub(crate) heap: Global,
    input: R,
    line: Vec<u8>,
    numbers: Range<u64>,
}

impl<R: BufRead> Script<R> {
    // Memory for the longest line is asked for once.
    pub(crate) fn new(heap: Global, input: R) -> Result<Script<R>, AllocError>
    where
        R: Drop,
    {
        let line = Vec::with_capacity(heap, LINE_MEMORY)?;
        Ok(Script {
            heap,
            input,
            line,
            numbers: 1..u64::MAX,
        })
    }

    // The next line that says something, with its number.
    fn next(&mut self) -> io::Result<Option<(u64, Result<&str, Bad>)>> {
        for number in self.numbers.by_ref() {
            if !read_line(&mut self.input, &mut self.line)? {
                return Ok(None);
            }
            if says_something(&self.line) {
                return Ok(Some((number, as_text(&self.line))));
            }
        }
        Ok(None)
    }

    // The next line of the head; lines that are no such line are passed over.
    pub(crate) fn next_head<H: Head + Drop>(
        &mut self,
        rt: &impl Print,
    ) -> anyhow::Result<Option<H>> {
        let heap = self.heap;
        for _ in 0..u64::MAX {
            let Some((number, line)) = self.next()? else {
                return Ok(None);
            };
            match line.and_then(|line| read_head::<H>(Words::new(heap, line))) {
                Ok(head) => return Ok(Some(head)),
                Err(bad) => print_error(rt, number, bad)?,
            }
        }
        Ok(None)
    }

    // Runs the lines after the head. A line that is no call is told so.
    pub(crate) fn run<S: SealingScheme, L: TokenLog, T: TokenStore>(
        &mut self,
        rt: &impl Print,
        session: &mut Session<'_, S, L, T>,
    ) -> anyhow::Result<()> {
        let heap = self.heap;
        for _ in 0..u64::MAX {
            let Some((number, line)) = self.next()? else {
                return Ok(());
            };
            match line.and_then(|line| read_call(Words::new(heap, line))) {
                Ok(command) => session.call(rt, number, command)?,
                Err(bad) => print_error(rt, number, bad)?,
            }
        }
        Ok(())
    }
}
