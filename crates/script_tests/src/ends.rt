//! Readers and writers that move few bytes, fail, or never end.
use crate::runs::{Full, Narrow, Trickle, defaults, in_steps, roomy, run_through};
use crate::same::assert_same;
use pref_script::{RunFault, Watched, read_input, run_script, write_output};
use std::io;
use std::io::Read;
use std::test::Fail;

/// Scripts with what is printed for them. The commands of the first need no question; it has line ends of both kinds, blank lines and a last
/// line without an end. The second is the one that the program is stored with.
const SCRIPTS: [(&[u8], &[u8]); 2] = [
    (
        b"table\r\nx,y\n1,2\nend\r\nas 1 insert 3,-4\n \t\n\r\nas 1 jump\nas 2 get 2\r\nas 1 room",
        b"1 inserted 2\nline 8 refused: command\n2 row 2: 3,-4\n1 room 1022\n",
    ),
    (
        b"table\nprice\nend\nas 1 insert 30\nas 1 insert 10\nas 2 insert 20\nas 1 begin best low(price)\n\
as 2 insert 5\nas 1 scan\nas 1 finish\n",
        b"1 inserted 1\n1 inserted 2\n2 inserted 3\n1 begun 1\n2 inserted 4\n1 left 0\n1 answer 1\n\
level 1 id 2: 10\n",
    ),
];

/// A reader without an end, which counts the bytes that it gave.
#[derive(Drop)]
struct Endless {
    given: usize,
}

impl Read for Endless {
    fn read(&mut self, buf: &mut [u8]) -> io::Result<usize> {
        buf.fill(b'x');
        self.given = self.given.wrapping_add(buf.len());
        Ok(buf.len())
    }
}

#[test]
fn an_input_is_read_whole(rt: HostRuntime) -> Result<(), Fail> {
    let [(text, _), _] = SCRIPTS;
    let mut reader = Watched::new(in_steps(text, 7));
    let result = read_input(rt.alloc(), &mut reader);
    let is_whole = match &result {
        Ok(input) => input.as_slice() == text,
        Err(_) => false,
    };
    assert_same(
        &rt,
        text.len(),
        &(is_whole, reader.failed()),
        &(true, false),
    );
    Ok(())
}

#[test]
fn an_output_is_written_whole(rt: HostRuntime) -> Result<(), Fail> {
    let [(_, returned), _] = SCRIPTS;
    let mut writer = Watched::new(roomy(rt.alloc(), 7));
    let result = write_output(&mut writer, returned);
    let of_none = writer.write(b"").ok();
    let failed = writer.failed();
    let taken = writer.into_inner().taken;
    let found = (result, of_none, failed, taken.as_slice());
    let wanted = (Ok(()), Some(0), false, returned);
    assert_same(&rt, returned.len(), &found, &wanted);
    Ok(())
}

#[test]
fn few_bytes_at_a_time_give_the_same_output(rt: HostRuntime) -> Result<(), Fail> {
    let alloc = rt.alloc();
    let setup = defaults()?;
    for (script, returned) in SCRIPTS {
        for step in [1, 2, 7, 8192] {
            let run = run_through(alloc, in_steps(script, step), roomy(alloc, step), setup);
            let wanted = (Ok(()), returned, false, false);
            assert_same(&rt, (script.len(), step), &run.seen(), &wanted);
        }
    }
    Ok(())
}

#[test]
fn a_reader_that_fails_leaves_nothing_written(rt: HostRuntime) -> Result<(), Fail> {
    let alloc = rt.alloc();
    let setup = defaults()?;
    let wanted = (Err(RunFault::Read), b"".as_slice(), true, false);
    let [(first, _), (stored, _)] = SCRIPTS;
    for (text, step) in [(first, 3), (stored, 8192)] {
        for fails_after in 0..text.len() + 1 {
            let reader = Trickle {
                text,
                step,
                fails_after,
                given: 0,
            };
            let run = run_through(alloc, reader, roomy(alloc, 8192), setup);
            assert_same(&rt, (text.len(), fails_after), &run.seen(), &wanted);
        }
    }
    Ok(())
}

#[test]
fn a_writer_that_fails_holds_a_beginning(rt: HostRuntime) -> Result<(), Fail> {
    let alloc = rt.alloc();
    let setup = defaults()?;
    let [first, stored] = SCRIPTS;
    let writers = [
        (first, 5, Full::Fails),
        (first, 5, Full::TakesNone),
        (stored, 8192, Full::Fails),
    ];
    for ((script, returned), step, full) in writers {
        for room in 0..returned.len() {
            let writer = Narrow {
                taken: Vec::new(alloc),
                step,
                room,
                full,
            };
            let run = run_through(alloc, in_steps(script, 8192), writer, setup);
            let wanted = (Err(RunFault::Write), &returned[..room], false, true);
            assert_same(&rt, (room, full), &run.seen(), &wanted);
        }
    }
    Ok(())
}

#[test]
fn a_line_of_a_fault_that_cannot_be_written_is_a_write_fault(rt: HostRuntime) -> Result<(), Fail> {
    let alloc = rt.alloc();
    let setup = defaults()?;
    let writer = Narrow {
        taken: Vec::new(alloc),
        step: 8192,
        room: 6,
        full: Full::TakesNone,
    };
    let run = run_through(alloc, in_steps(b"tables", 8192), writer, setup);
    let wanted = (Err(RunFault::Write), b"script".as_slice(), false, true);
    assert_same(&rt, "tables", &run.seen(), &wanted);
    Ok(())
}

#[test]
fn a_reader_without_an_end_is_too_large(rt: HostRuntime) -> Result<(), Fail> {
    let alloc = rt.alloc();
    let setup = defaults()?;
    let mut reader = Watched::new(Endless { given: 0 });
    let mut writer = Watched::new(Vec::new(alloc));
    let result = run_script(alloc, &mut reader, &mut writer, setup);
    let failed = reader.failed();
    let moved = (reader.into_inner().given, writer.into_inner().len());
    let wanted = (Err(RunFault::TooLarge), false, (16_777_217, 0));
    assert_same(&rt, &"endless", &(result, failed, moved), &wanted);
    Ok(())
}
