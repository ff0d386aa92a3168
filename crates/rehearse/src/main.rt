// The program `rehearse`: plays the script on standard input on a level over the plan of the sheet `plan.bin`, and writes the rows.
// It is thin: a whole rehearsal, from the bytes of sheet and script to those of the rows, is proved in `rehearsal`.
#![tactic(auto)]

ghost use Rattle.std.specs.Prelude.{◌≤◌, length, IfOk};

use anyhow::Context;
use command::opening::MOST_BYTES;
use plan::plan::Plan;
use rehearsal::whole::rehearse;
use reservation::reservation::Reservation;
use row::sink::Sink;
use sheet::load::load;
use std::alloc::Global;
use std::io::{Read, Write};
use std::{fs, io};

// Standard output as the sink of the rows. No contract can say what a stream does with its bytes.
#[derive(Drop)]
struct Output<'a> {
    rt: &'a HostRuntime,
}

impl Sink for Output<'_> {
    type Fault = io::Error;

    ghost hands = { λ _ _ _ _. Unit {0} };

    fn take(&mut self, bytes: &[u8]) -> io::Result<()> {
        self.rt.stdout().write_all(bytes)
    }
}

// Reads standard input until it ends or the buffer is full, and says how much it is. A loop: each read takes all that the buffer
// has room for, since a socket that keeps messages apart loses what a shorter read leaves of one.
fn read_input(rt: &HostRuntime, buf: &mut [u8]) -> io::Result<usize>
    ensures { IfOk result (λ n. n ≤ length buf.old) }
{
    let mut input = rt.stdin();
    let mut have = 0;
    while have < buf.len() {
        let n = input.read(&mut buf[have..])?;
        if n == 0 {
            break;
        }
        have += n;
    }
    Ok(have)
}

// Whether the sheet is refused. Want of memory is no verdict on it.
fn is_refused(heap: Global, sheet: &[u8]) -> anyhow::Result<bool> {
    let mut plan = Plan::empty(heap);
    let mut list = [Reservation::default(); 16];
    match load(sheet, &mut plan, &mut list) {
        Ok(_) => Ok(false),
        Err(fault) => {
            fault.number().context("no memory for the plan")?;
            Ok(true)
        }
    }
}

// One byte more than a script may have is enough to tell that it is too long. Beside a refused sheet nobody waits for a script.
fn run(rt: &HostRuntime) -> anyhow::Result<()> {
    let sheet = fs::read(rt, "plan.bin")?;
    let mut script = [0u8; MOST_BYTES + 1];
    let size = if is_refused(rt.alloc(), sheet.as_slice())? {
        0
    } else {
        read_input(rt, &mut script)?
    };
    let mut output = Output { rt };
    rehearse(rt.alloc(), sheet.as_slice(), &script[..size], &mut output)?;
    Ok(())
}

fn main(rt: HostRuntime) -> anyhow::Result<()> {
    run(&rt)
}
