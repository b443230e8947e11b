//! Runs commands of `grok_tool` on devices (a reader and a writer) that fail, move few bytes in each call, or are interrupted.
use crate::{LABELS, begin, finish};
use anyhow::{Result, bail};
use grok_commands::run;
use std::alloc::{AllocError, Global};
use std::io;
use std::io::{ErrorKind, Read, Write};

/// Which calls of a device fail. They are numbered from 0.
#[derive(Clone, Copy)]
enum Failing {
    Never,
    /// All calls from this one on.
    Since(usize),
    /// This call alone, because it would block.
    At(usize),
    /// Every second call, beginning with the first, fails as interrupted.
    Interrupted,
    /// Each flush.
    Flush,
}

/// What both devices have: the most bytes that a call moves, which calls fail, and how many calls there were.
#[derive(Clone, Copy)]
struct Device {
    most: usize,
    failing: Failing,
    calls: usize,
}

impl Device {
    /// Counts a call, and returns how many of these bytes it moves.
    fn move_bytes(&mut self, count: usize) -> io::Result<usize> {
        let call = self.calls;
        self.calls = call.saturating_add(1);
        match self.failing {
            Failing::Since(bad) if bad <= call => Err(io::Error::from(ErrorKind::BrokenPipe)),
            Failing::At(bad) if bad == call => Err(io::Error::from(ErrorKind::WouldBlock)),
            Failing::Interrupted if call % 2 == 0 => Err(io::Error::from(ErrorKind::Interrupted)),
            _ => Ok(count.min(self.most)),
        }
    }
}

/// A reader that returns these bytes.
#[derive(Drop)]
struct Input<'a> {
    device: Device,
    left: &'a [u8],
}

impl Read for Input<'_> {
    fn read(&mut self, buf: &mut [u8]) -> io::Result<usize> {
        let count = self
            .device
            .move_bytes(buf.len())?
            .min(buf.len())
            .min(self.left.len());
        buf[..count].copy_from_slice(&self.left[..count]);
        self.left = &self.left[count..];
        Ok(count)
    }
}

/// A writer that keeps what is written to it.
#[derive(Drop)]
struct Output {
    device: Device,
    taken: Vec<u8>,
    flushes: usize,
}

impl Write for Output {
    fn write(&mut self, buf: &[u8]) -> io::Result<usize> {
        let count = self.device.move_bytes(buf.len())?.min(buf.len());
        self.taken.extend_from_slice(&buf[..count])?;
        Ok(count)
    }

    fn flush(&mut self) -> io::Result<()> {
        self.flushes = self.flushes.saturating_add(1);
        match self.device.failing {
            Failing::Flush => Err(io::Error::from(ErrorKind::BrokenPipe)),
            _ => Ok(()),
        }
    }
}

fn number(word: &str) -> Result<usize> {
    match word.parse::<usize>() {
        Ok(number) => Ok(number),
        Err(_) => bail!("no number"),
    }
}

/// Returns the device of these words: the most bytes that a call moves, which calls fail, and the number of a call.
fn device_of(most: &str, failing: &str, call: &str) -> Result<Device> {
    let call = number(call)?;
    let failing = match failing {
        "never" => Failing::Never,
        "since" => Failing::Since(call),
        "at" => Failing::At(call),
        "interrupted" => Failing::Interrupted,
        "flush" => Failing::Flush,
        _ => bail!("no device fails in this way"),
    };
    Ok(Device {
        most: number(most)?,
        failing,
        calls: 0,
    })
}

fn texts_of(alloc: Global, words: &[String]) -> Result<Vec<&str>, AllocError> {
    let mut texts = Vec::new(alloc);
    for word in words {
        texts.push(word.as_str())?;
    }
    Ok(texts)
}

/// Runs a command on the bytes of standard input. The first three words say how the reader behaves, the next three how the
/// writer does, and the others are those of the command.
pub(crate) fn call(rt: &HostRuntime, words: &[String]) -> Result<()> {
    let [
        read_most,
        reading,
        read_call,
        write_most,
        writing,
        write_call,
        command @ ..,
    ] = words
    else {
        bail!("no words for the devices");
    };
    let reader = device_of(read_most.as_str(), reading.as_str(), read_call.as_str())?;
    let writer = device_of(write_most.as_str(), writing.as_str(), write_call.as_str())?;
    let mut given = Vec::new(rt.alloc());
    rt.stdin().read_to_end(&mut given)?;
    run_on(rt, command, (reader, &given), writer)
}

fn run_on(
    rt: &HostRuntime,
    command: &[String],
    (reader, left): (Device, &[u8]),
    writer: Device,
) -> Result<()> {
    let words = texts_of(rt.alloc(), command)?;
    let mut input = Input {
        device: reader,
        left,
    };
    let mut output = Output {
        device: writer,
        taken: Vec::new(rt.alloc()),
        flushes: 0,
    };
    let ended = run(rt.alloc(), &words, &mut input, &mut output);
    println!(rt; "{ended:?}")?;
    show_calls(rt, &input, &output)
}

/// Prints what became of the devices: how often each was called, how many bytes weren't read, and all bytes that were written.
fn show_calls(rt: &HostRuntime, input: &Input<'_>, output: &Output) -> Result<()> {
    let reads = input.device.calls;
    let left = input.left.len();
    let writes = output.device.calls;
    let flushes = output.flushes;
    println!(rt; "reads {reads} left {left} writes {writes} flushes {flushes}")?;
    println!(rt; "{:?}", output.taken)?;
    Ok(())
}

const WORKING: Device = Device {
    most: usize::MAX,
    failing: Failing::Never,
    calls: 0,
};

/// Runs these words of `grok_tool` twice, without input.
pub(crate) fn run_twice(rt: &HostRuntime, words: &[String]) -> Result<()> {
    let words = texts_of(rt.alloc(), words)?;
    'calls: for label in LABELS {
        run_words(rt, label, &words)?;
    }
    Ok(())
}

fn run_words(rt: &HostRuntime, label: &str, words: &[&str]) -> Result<()> {
    let mut input = Input {
        device: WORKING,
        left: b"",
    };
    let mut output = Output {
        device: WORKING,
        taken: Vec::new(rt.alloc()),
        flushes: 0,
    };
    begin(rt)?;
    finish(rt, label, run(rt.alloc(), words, &mut input, &mut output))
}
