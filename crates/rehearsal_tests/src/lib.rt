// Tests of scripts and rows at their edges, and of whole rehearsals. It uses `cases` and `rehearsal`, and what is below them.
#![tactic(auto)]

#[cfg(test)]
mod tests {
    use cases::example_plan;
    use command::command::{Command, ScriptFault};
    use command::opening::read_opening;
    use command::reader::Reader;
    use level::ticked::Letter;
    use rehearsal::fault::RehearsalFault;
    use rehearsal::whole::rehearse_on;
    use row::row::{Row, RowFault};
    use row::write::write_row;
    use std::test::Fail;

    // A line that says no command.
    fn malformed(text: &[u8]) -> Result<(), Fail> {
        let mut reader = Reader::new(text);
        if reader.command() == Err(ScriptFault::Malformed { line: 1 }) {
            Ok(())
        } else {
            Err(Fail::new("it says a command"))
        }
    }

    // A script that is malformed at line 1.
    fn unopened(text: &[u8]) -> Result<(), Fail> {
        match read_opening(text) {
            Ok(_) => Err(Fail::new("it opens")),
            Err(ScriptFault::Malformed { line: 1 }) => Ok(()),
            Err(_) => Err(Fail::new("it is malformed at another line")),
        }
    }

    #[test]
    fn numbers_that_are_malformed() -> Result<(), Fail> {
        malformed(b"w 01\n")?;
        malformed(b"w -1\n")?;
        malformed(b"w 65536\n")?;
        malformed(b"w 4294967296\n")?;
        malformed(b"t 0\n")?;
        malformed(b"t 10000\n")?;
        malformed(b"o -0 0\n")?;
        malformed(b"o 2147483648 0\n")?;
        malformed(b"o -2147483649 0\n")?;
        malformed(b"o 0 256\n")
    }

    #[test]
    fn lines_that_are_malformed() -> Result<(), Fail> {
        malformed(b"")?;
        malformed(b"\n")?;
        malformed(b"x 1\n")?;
        malformed(b"w\n")?;
        malformed(b"w  1\n")?;
        malformed(b"w 1 \n")?;
        malformed(b"w 1")?;
        malformed(b" w 1\n")?;
        malformed(b"c 0 1 2 20\n")
    }

    #[test]
    fn scripts_that_do_not_open() -> Result<(), Fail> {
        unopened(b"")?;
        unopened(b"w 1\n")?;
        unopened(b"o 0 0")?;
        unopened(&[b'o'; 16385])
    }

    #[test]
    fn the_least_and_the_greatest_numbers(rt: HostRuntime) {
        let mut reader = Reader::new(b"o -2147483648 255\nt 9999\nc 65535 0 2147483647 -1 65535\n");
        let clock = i32::MIN;
        assert_eq!(rt;
            reader.command(),
            Ok(Command::Open {
                clock,
                repeats: 255,
            })
        );
        assert_eq!(rt; reader.command(), Ok(Command::Tick { count: 9999 }));
        assert_eq!(rt;
            reader.command(),
            Ok(Command::Begin {
                seat: 65535,
                activity: 0,
                start: i32::MAX,
                deadline: -1,
                estimate: 65535,
            })
        );
        assert_eq!(rt; reader.line(), 4);
        assert!(rt; reader.at_end());
    }

    #[test]
    fn a_row_that_just_fits(rt: HostRuntime) {
        let row = Row::Ran {
            tick: i32::MIN,
            runner: None,
            letter: Letter::Idle,
        };
        let mut buffer = [7u8; 17];
        assert_eq!(rt; write_row(&row, &mut buffer), Ok(16));
        assert!(rt; &buffer == b"-2147483648 - i\n\x07");
        let mut short = [7u8; 15];
        assert_eq!(rt; write_row(&row, &mut short), Err(RowFault::Full));
        assert!(rt; short == [7u8; 15]);
    }

    // The script gives these rows over the example plan.
    fn gives(rt: HostRuntime, script: &[u8], rows: &[u8]) -> Result<(), Fail> {
        let heap = rt.alloc();
        let mut told = Vec::new(heap);
        rehearse_on(example_plan(heap)?, script, &mut told)?;
        if told.as_slice() == rows {
            Ok(())
        } else {
            Err(Fail::new("it gives other rows"))
        }
    }

    #[test]
    fn a_refused_call_has_its_row(rt: HostRuntime) -> Result<(), Fail> {
        gives(rt, b"o 0 0\nw 16\nb 16\n", b"w 16 no 2\nb 16 no 2\n")?;
        gives(rt, b"o 0 0\nc 0 16 0 20 1\n", b"c 0 no 2\n")?;
        gives(rt, b"o 0 0\nc 0 1 0 20 0\n", b"c 0 no 3\n")?;
        gives(rt, b"o 0 0\nc 0 1 -1 20 1\n", b"c 0 no 4\n")?;
        gives(rt, b"o 0 0\nc 0 1 5 5 1\n", b"c 0 no 5\n")?;
        gives(rt, b"o 0 0\nc 16 1 0 20 1\n", b"c 16 no 6\n")?;
        gives(rt, b"o 0 0\nc 0 1 0 20 20\n", b"c 0 no 7\n")?;
        gives(rt, b"o 0 0\ne 16\ne 1\n", b"e 16 no 9\ne 1 no 9\n")?;
        gives(
            rt,
            b"o 2147483646 0\nt 3\nw 16\n",
            b"2147483646 - i\nt no 1\nw 16 no 2\n",
        )
    }

    #[test]
    fn a_seat_is_free_again_after_its_end(rt: HostRuntime) -> Result<(), Fail> {
        gives(
            rt,
            b"o 0 0\nc 0 1 0 20 1\nc 0 1 0 20 1\ne 0\ne 0\nc 0 1 0 20 1\n",
            b"c 0 ok\nc 0 no 6\ne 0 0\ne 0 no 9\nc 0 ok\n",
        )
    }

    #[test]
    fn a_malformed_line_ends_the_rehearsal(rt: HostRuntime) -> Result<(), Fail> {
        gives(rt, b"o 7 0\nt 1\no 7 0\nt 1\n", b"7 - i\n? 3\n")?;
        gives(rt, b"o 7 0\nt 1\nt 1", b"7 - i\n? 3\n")?;
        gives(rt, b"t 1\n", b"? 1\n")?;
        gives(rt, b"", b"? 1\n")
    }

    #[test]
    fn numbers_of_refusals(rt: HostRuntime) {
        assert_eq!(rt; RowFault::Full.number(), 36);
        assert_eq!(rt; ScriptFault::Malformed { line: 3 }.number(), 35);
    }

    #[test]
    fn texts_of_refusals(rt: HostRuntime) -> Result<(), Fail> {
        let heap = rt.alloc();
        assert!(rt;
            RowFault::Full.to_string(heap)?.as_str()
                == "36: the row and its byte 10 are longer than the buffer"
        );
        assert!(rt;
            ScriptFault::Malformed { line: 3 }.to_string(heap)?.as_str()
                == "35: line 3 is malformed"
        );
        let memory: RehearsalFault<RowFault> = RehearsalFault::Memory;
        assert!(rt; memory.to_string(heap)?.as_str() == "no memory for the plan");
        let output = RehearsalFault::Output(RowFault::Full);
        assert!(rt;
            output.to_string(heap)?.as_str()
                == "36: the row and its byte 10 are longer than the buffer"
        );
        Ok(())
    }
}
