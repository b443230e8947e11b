//! Tests of answering the lines of an input on devices (readers and writers) that fail: no contract says what a device
//! gives.
ghost use Rattle.std.specs.Prelude.{◌≡◌};

use grok_lines::{LineAnswers, LinesError, handle_lines};
use groklog_input::{Answered, Encoding, FormedAnswers, LineForm, Watched, answer_input};
use groklog_reports::{FileFailure, RunFault};
use std::alloc::AllocError;
use std::io::{self, ErrorKind, Read, Write};
use std::process::Abort;
use std::test::Fail;

/// Answers each line with the line itself, without its line feed.
#[derive(Drop)]
struct Echo;

impl LineAnswers for Echo {
    ghost answer = { λ _ n line. line };

    fn answer_str(&mut self, text: &mut Vec<u8>, line: &str) -> Result<(), AllocError> {
        text.extend_from_slice(line.as_bytes())
    }

    fn answer_broken(&mut self, text: &mut Vec<u8>, line: &[u8]) -> Result<(), AllocError> {
        text.extend_from_slice(line)
    }
}

/// A reader that returns one byte in each call. Before each byte, and before it fails, a call is interrupted. When no
/// byte is left, it fails with this kind of error, or is at its end.
#[derive(Drop)]
struct Input<'a> {
    left: &'a [u8],
    is_interrupted: bool,
    failure: Option<ErrorKind>,
}

impl Read for Input<'_> {
    fn read(&mut self, buf: &mut [u8]) -> io::Result<usize> {
        self.is_interrupted = !self.is_interrupted;
        if self.is_interrupted {
            return Err(io::Error::from(ErrorKind::Interrupted));
        }
        if self.left.is_empty()
            && let Some(kind) = self.failure
        {
            return Err(io::Error::from(kind));
        }
        let count = buf.len().min(self.left.len()).min(1);
        buf[..count].copy_from_slice(&self.left[..count]);
        self.left = &self.left[count..];
        Ok(count)
    }
}

/// A writer that takes `room` bytes in all. After these it fails with this kind of error, or takes no byte.
#[derive(Drop)]
struct Output {
    taken: Vec<u8>,
    room: usize,
    failure: Option<ErrorKind>,
}

impl Write for Output {
    fn write(&mut self, buf: &[u8]) -> io::Result<usize> {
        let count = buf.len().min(self.room);
        if count == 0
            && let Some(kind) = self.failure
        {
            return Err(io::Error::from(kind));
        }
        self.taken.extend_from_slice(&buf[..count])?;
        self.room -= count;
        Ok(count)
    }

    fn flush(&mut self) -> io::Result<()> {
        Ok(())
    }
}

/// How answering ended: it was all answered, its reader has enough, or there was a fault with this text.
fn ending(
    rt: &impl AllocGlobal,
    answered: Result<Answered, RunFault>,
) -> Result<String, AllocError> {
    match answered {
        Ok(Answered::All) => String::from_str(rt.alloc(), "all"),
        Ok(Answered::Enough) => String::from_str(rt.alloc(), "enough"),
        Err(fault) => fault.to_string(rt.alloc()),
    }
}

/// Answers the lines of `lines`, with a reader and a writer that fail as these arguments say. Checks how that ends, and what the
/// writer took.
fn check(
    rt: &(impl Abort + AllocGlobal),
    (lines, reading): (&[u8], Option<ErrorKind>),
    (room, writing): (usize, Option<ErrorKind>),
    expected: &str,
    taken: &[u8],
) -> Result<(), Fail> {
    let mut input = Watched::new(Input {
        left: lines,
        is_interrupted: false,
        failure: reading,
    });
    let mut output = Output {
        taken: Vec::new(rt.alloc()),
        room,
        failure: writing,
    };
    let answered = answer_input(rt.alloc(), &mut Echo, &mut input, &mut output, "a.log");
    let ending = ending(rt, answered)?;
    assert_eq!(rt; ending.as_str(), expected);
    assert_eq!(rt; output.taken.as_slice(), taken);
    Ok(())
}

/// The reason is that of the read that failed, and not that of the one before, which was interrupted. The line that
/// hadn't ended isn't answered.
#[test]
fn a_read_is_interrupted_and_then_fails(rt: HostRuntime) -> Result<(), Fail> {
    check(
        &rt,
        (b"p\nq", Some(ErrorKind::PermissionDenied)),
        (9, None),
        "groklog: can't read a.log: permission denied\n  try: check with ls -l who may read it\n",
        b"p",
    )?;
    check(
        &rt,
        (b"p\nq", Some(ErrorKind::OutOfMemory)),
        (9, None),
        "groklog: out of memory\n",
        b"p",
    )
}

#[test]
fn the_reader_of_the_answers_closes_the_pipe(rt: HostRuntime) -> Result<(), Fail> {
    let closed = Some(ErrorKind::BrokenPipe);
    check(&rt, (b"p\nq\nr\n", None), (2, closed), "enough", b"pq")?;
    check(&rt, (b"p\n", None), (0, closed), "enough", b"")
}

#[test]
fn a_write_takes_no_byte_or_fails(rt: HostRuntime) -> Result<(), Fail> {
    check(
        &rt,
        (b"p\nq\n", None),
        (1, None),
        "groklog: can't write the answers: failed to write whole buffer\n  try: check where standard output goes\n",
        b"p",
    )?;
    check(
        &rt,
        (b"p\nq\n", None),
        (1, Some(ErrorKind::StorageFull)),
        "groklog: can't write the answers: no storage space\n  try: free some space, or write to another disk\n",
        b"p",
    )?;
    check(
        &rt,
        (b"p\nq\n", None),
        (1, Some(ErrorKind::QuotaExceeded)),
        "groklog: can't write the answers: quota exceeded\n  try: free some space, or write to another disk\n",
        b"p",
    )
}

/// The words for errors that std puts into no kind.
#[test]
fn words_of_the_system(rt: HostRuntime) -> Result<(), Fail> {
    for (number, expected) in [
        (5, "input/output error"),
        (6, "no such device or address"),
        (9, "bad file descriptor"),
        (13, "permission denied"),
        (19, "no such device"),
        (23, "too many open files in the system"),
        (24, "too many open files"),
        (117, "the file system is damaged"),
        (121, "system error 121"),
    ] {
        let failure = FileFailure::of(&io::Error::from_raw_os_error(number));
        let words = failure.to_string(rt.alloc())?;
        assert_eq!(rt; words.as_str(), expected);
    }
    Ok(())
}

/// The text of an error of the output has the system's reason.
#[test]
fn text_of_a_failed_write(rt: HostRuntime) -> Result<(), Fail> {
    let error = LinesError::Write(io::Error::from(ErrorKind::BrokenPipe));
    let text = error.to_string(rt.alloc())?;
    assert_eq!(rt; text.as_str(), "write failed: broken pipe");
    Ok(())
}

/// Answers the lines of an input with the lines as they are read in this form. Checks the answers, and what the lines show
/// about their input: its encoding, and its first line that isn't UTF-8.
fn check_form(
    rt: &(impl Abort + AllocGlobal),
    form: LineForm,
    lines: &[u8],
    answers: &[u8],
    (encoding, first_broken): (Encoding, Option<u64>),
) -> Result<(), Fail> {
    let mut formed = FormedAnswers::new(rt.alloc(), Echo, form);
    let mut output = Vec::new(rt.alloc());
    // What an earlier input shows is forgotten.
    let mut earlier: &[u8] = b"\x1f\x8b\r\n";
    handle_lines(rt.alloc(), &mut formed, &mut earlier, &mut output)?;
    formed.begin_input();
    output.clear();
    let mut input = lines;
    handle_lines(rt.alloc(), &mut formed, &mut input, &mut output)?;
    assert_eq!(rt; output.as_slice(), answers);
    let signs = formed.signs;
    assert!(rt; signs.encoding == encoding);
    assert_eq!(rt; signs.first_broken, first_broken);
    Ok(())
}

const AS_IT_IS: LineForm = LineForm {
    drops_return: false,
    is_lossy: false,
};

/// The mark is taken off the first line alone, and once.
#[test]
fn lines_after_a_byte_order_mark(rt: HostRuntime) -> Result<(), Fail> {
    check_form(
        &rt,
        AS_IT_IS,
        b"\xef\xbb\xbf\xef\xbb\xbfp\r\n\xef\xbb\xbfq",
        b"\xef\xbb\xbfp\r\xef\xbb\xbfq",
        (Encoding::Other, None),
    )?;
    check_form(
        &rt,
        AS_IT_IS,
        b"\xef\xbb\xbfp\xff\nq\r",
        b"p\xffq\r",
        (Encoding::Other, Some(1)),
    )
}

/// One carriage return is taken off, at the end of a line, also of one that isn't UTF-8.
#[test]
fn lines_without_carriage_returns(rt: HostRuntime) -> Result<(), Fail> {
    let form = LineForm {
        drops_return: true,
        ..AS_IT_IS
    };
    check_form(
        &rt,
        form,
        b"p\r\r\n\r\n\n\rq\n\xff\r",
        b"p\r\rq\xff",
        (Encoding::Other, Some(5)),
    )
}

/// Each part that isn't UTF-8 becomes U+FFFD.
#[test]
fn lines_that_are_not_utf8(rt: HostRuntime) -> Result<(), Fail> {
    let form = LineForm {
        is_lossy: true,
        ..AS_IT_IS
    };
    let answers = "p\u{fffd}\u{fffd}!\r".as_bytes();
    let signs = (Encoding::Other, Some(2));
    check_form(&rt, form, b"p\n\xff\xe2\x82!\r\n", answers, signs)?;
    let utf16 = (Encoding::Utf16, Some(1));
    check_form(
        &rt,
        form,
        b"\xff\xfep",
        "\u{fffd}\u{fffd}p".as_bytes(),
        utf16,
    )?;
    check_form(&rt, form, b"\xfe\xff", "\u{fffd}\u{fffd}".as_bytes(), utf16)
}
