ghost use Rattle.std.specs.Prelude.{None};

use super::*;
use crate::frame::picture::source_frame;
use crate::generated::{HEADER as OWN_HEADER, generated};
use crate::program::group::group_of;
use crate::program::report::{Form, Results, report};
use crate::text::block_line::BlockLine;
use crate::text::block_table::blocks_said;
use crate::text::header::FrameFormat;
use crate::text::tiling_of;
use av1_block::{Block, BlockSize};
use av1_frame::{Gate, GroupError, OpenGate};
use av1_plane::{ChromaSampling, Plane, PlaneRegion, Rect, Three};
use std::alloc::{AllocError, Global};
use std::io;
use std::io::{ErrorKind, Read, Write};
use std::sync::atomic::{AtomicU64, Ordering};
use std::test::*;
use std::thread::Threads;

const HEADER: &[u8] =
    b"av1rec 1\nframe 16 8 400 8\ntiling 25 1 0 0\ntype key\nquant 100 100\nswitches 1 0 0 0 0\ndeltas 0 0 0 0 0 0 0 0 0 0 0 0 0 0\ncdef 3 0 0 0 0 0 0 0 0 0 0 0 0 0 0 0 0\n";

const ROWS: &[u8] =
    b"64646464646464646868686868686868\n64646464646464646868686868686868\n64646464646464646868686868686868\n64646464646464646868686868686868\n64646464646464646868686868686868\n64646464646464646868686868686868\n64646464646464646868686868686868\n64646464646464646868686868686868\n";

const BLOCKS: &[u8] =
    b"blocks 2\n0 0 2 2 3 1 0 0 0 8 2 2 0 0 0 0 0 0\n2 0 2 2 3 1 0 0 0 8 2 2 0 0 0 0 0 0\n";

fn joined(alloc: Global, parts: &[&[u8]]) -> Result<Vec<u8>, AllocError> {
    let mut text = Vec::new(alloc);
    for part in parts {
        text.extend_from_slice(part)?;
    }
    Ok(text)
}

fn right_text(alloc: Global) -> Result<Vec<u8>, AllocError> {
    joined(
        alloc,
        &[
            HEADER,
            b"source\n",
            ROWS,
            b"tile 0 07\n",
            ROWS,
            BLOCKS,
            b"units 0\nend\n",
        ],
    )
}

fn split(alloc: Global, line: &str) -> Result<Vec<String>, AllocError> {
    let mut words = Vec::new(alloc);
    for word in line.split(' ') {
        words.push(String::from_str(alloc, word)?)?;
    }
    Ok(words)
}

// How a run over a text in memory ends, and what it prints.
fn ran<R: Threads + Sync>(
    rt: &R,
    alloc: Global,
    words: &str,
    text: Vec<u8>,
) -> Result<(Status, Vec<u8>), AllocError> {
    let words = split(alloc, words)?;
    let mut source = PlainSource::new(text);
    let mut sink = PlainSink::new(alloc);
    let status = run(rt, alloc, &words, &mut source, &mut sink, &OpenGate);
    Ok((status, Vec::from_slice(alloc, sink.bytes())?))
}

const REPORT: &[u8] =
    b"levels 5 5 5 5\nsize_bytes 1\ncontext_tile 0\ngroup 07\nplane 0\n64646464646565666767686868686868\n64646464646565666767686868686868\n64646464646565666767686868686868\n64646464646565666767686868686868\n64646464646565666767686868686868\n64646464646565666767686868686868\n64646464646565666767686868686868\n64646464646565666767686868686868\nend\n";

#[test]
fn reports_a_right_text(rt: HostRuntime) -> Result<(), Fail> {
    for words in ["group 0", "group 1", "group 64"] {
        let (status, printed) = ran(&rt, rt.alloc(), words, right_text(rt.alloc())?)?;
        assert_eq!(rt; status, Status::Done);
        assert_eq!(rt; printed.as_slice(), REPORT);
    }
    Ok(())
}

#[test]
fn refuses_results(rt: HostRuntime) -> Result<(), Fail> {
    let alloc = rt.alloc();
    let rows = joined(alloc, &[HEADER, b"source\n", ROWS])?;
    let front = rows.as_slice();
    for (first, samples, rest, line) in [
        (
            b"tile 0 refused\n".as_slice(),
            b"".as_slice(),
            b"end\n".as_slice(),
            b"refused coder tile 0\n".as_slice(),
        ),
        (
            b"tile 0 -\n",
            ROWS,
            b"blocks 0\nunits 0\nend\n",
            b"refused empty tile 0\n",
        ),
        (
            b"tile 0 07\n",
            ROWS,
            b"blocks 1\n0 0 1 1 3 1 0 0 0 8 0 2 0 0 0 0 0 0\nunits 0\nend\n",
            b"refused block tile 0\n",
        ),
    ] {
        let text = joined(alloc, &[front, first, samples, rest])?;
        let (status, printed) = ran(&rt, alloc, "group 1", text)?;
        assert_eq!(rt; status.code(), 7);
        assert_eq!(rt; printed.as_slice(), line);
    }
    Ok(())
}

#[test]
fn refuses_words(rt: HostRuntime) -> Result<(), Fail> {
    for (words, code, line) in [
        ("group 01", 2, b"refused usage\n".as_slice()),
        ("group", 2, b"refused usage\n".as_slice()),
        ("group 4294967296", 2, b"refused usage\n".as_slice()),
        ("tiles 1", 2, b"refused usage\n".as_slice()),
        ("gen 7", 2, b"refused usage\n".as_slice()),
        ("gen 07 1", 2, b"refused usage\n".as_slice()),
    ] {
        let (status, printed) = ran(&rt, rt.alloc(), words, right_text(rt.alloc())?)?;
        assert_eq!(rt; status.code(), code);
        assert_eq!(rt; printed.as_slice(), line);
    }
    Ok(())
}

const FRAME_OF_ONE_COLUMN: &[u8] =
    b"av1rec 1\nframe 1 8 400 8\ntiling 25 1 0 0\ntype key\nquant 100 100\nswitches 1 0 1 1 0\n";

#[test]
fn refuses_texts(rt: HostRuntime) -> Result<(), Fail> {
    let alloc = rt.alloc();
    let rows = joined(alloc, &[HEADER, b"source\n", ROWS])?;
    let tile = joined(alloc, &[rows.as_slice(), b"tile 0 07\n", ROWS])?;
    for (front, rest, line) in [
        (
            b"".as_slice(),
            b"".as_slice(),
            b"refused syntax line 1\n".as_slice(),
        ),
        (
            HEADER,
            b"source\n64646464646464646868686868686868\n64646464646464646868686868686868\n64646464",
            b"refused syntax line 12\n",
        ),
        (rows.as_slice(), b"tile 0 0\n", b"refused syntax line 18\n"),
        (rows.as_slice(), b"tile 1 07\n", b"refused syntax line 18\n"),
        (
            tile.as_slice(),
            b"blocks 1\n3 0 2 2 3 1 0 0 0 8 2 2 0 0 0 0 0 0\n",
            b"refused syntax line 28\n",
        ),
        (
            tile.as_slice(),
            b"blocks 0\nunits 0\nend\n??",
            b"refused syntax line 30\n",
        ),
        (
            tile.as_slice(),
            b"blocks 0\nunits 0\nend",
            b"refused syntax line 29\n",
        ),
        (
            tile.as_slice(),
            b"blocks 0\nunits 1\n0 1 0 none\n",
            b"refused syntax line 29\n",
        ),
        (FRAME_OF_ONE_COLUMN, b"", b"refused syntax line 6\n"),
        (NO_TILING, b"", b"refused no tiling\n"),
    ] {
        let (_, printed) = ran(&rt, alloc, "group 1", joined(alloc, &[front, rest])?)?;
        assert_eq!(rt; printed.as_slice(), line);
    }
    Ok(())
}

const NO_TILING: &[u8] =
    b"av1rec 1\nframe 8 8 444 12\ntiling 25 0 0 0\ntype key\nquant 100 100\nswitches 0 1 1 0 0\ndeltas 1 0 0 0 0 0 0 0 0 0 0 1 3 1\ncdef 3 0 0 0 0 0 0 0 0 0 0 0 0 0 0 0 0\n";

const NINE_TILES: &[u8] =
    b"av1rec 1\nframe 160 144 420 8\ntiling 25 1 2 2\ntype key\nquant 100 100\nswitches 0 0 0 0 0\ndeltas 0 0 0 0 0 0 0 0 0 0 0 0 0 0\ncdef 3 0 0 0 0 0 0 0 0 0 0 0 0 0 0 0 0\n";

const GRID: &[u8] =
    b"grid 3 3 1 1\ntile 0 0 0 64 64 0 0 16 16\ntile 1 64 0 64 64 16 0 16 16\ntile 2 128 0 64 64 32 0 8 16\ntile 3 0 64 64 64 0 16 16 16\ntile 4 64 64 64 64 16 16 16 16\ntile 5 128 64 64 64 32 16 8 16\ntile 6 0 128 64 64 0 32 16 4\ntile 7 64 128 64 64 16 32 16 4\ntile 8 128 128 64 64 32 32 8 4\nend\n";

#[test]
fn prints_grids(rt: HostRuntime) -> Result<(), Fail> {
    let alloc = rt.alloc();
    for (front, rest, code, line) in [
        (NINE_TILES, b"".as_slice(), 0, GRID),
        (NINE_TILES, b"what follows isn't looked at", 0, GRID),
        (NO_TILING, b"??", 6, b"refused no tiling\n"),
        (FRAME_OF_ONE_COLUMN, b"??", 5, b"refused syntax line 6\n"),
        (b"av1rec 1", b"", 5, b"refused syntax line 1\n"),
    ] {
        let (status, printed) = ran(&rt, alloc, "tiles", joined(alloc, &[front, rest])?)?;
        assert_eq!(rt; status.code(), code);
        assert_eq!(rt; printed.as_slice(), line);
    }
    Ok(())
}

// Gives line feeds without end.
#[derive(Drop)]
struct Endless;

impl Source for Endless {
    ghost left = { λ source. None };

    ghost faults = { λ source. 0 };

    fn read(&mut self, buf: &mut [u8]) -> Result<usize, Failed> {
        buf.fill(b'\n');
        Ok(buf.len())
    }
}

#[test]
fn refuses_too_long_a_text(rt: HostRuntime) -> Result<(), Fail> {
    let alloc = rt.alloc();
    let words = split(alloc, "group 1")?;
    let mut sink = PlainSink::new(alloc);
    let status = run(&rt, alloc, &words, &mut Endless, &mut sink, &OpenGate);
    assert_eq!(rt; status, Status::TooLong);
    assert_eq!(rt; sink.bytes(), b"refused too long\n".as_slice());
    Ok(())
}

#[test]
fn tells_a_failing_read(rt: HostRuntime) -> Result<(), Fail> {
    let alloc = rt.alloc();
    let words = split(alloc, "group 1")?;
    let mut failing = Vec::new(alloc);
    failing.push(1u64)?;
    let mut source = MemorySource::new(right_text(alloc)?, 100, failing);
    let mut sink = MemorySink::new(alloc, 10, Vec::new(alloc));
    let status = run(&rt, alloc, &words, &mut source, &mut sink, &OpenGate);
    assert_eq!(rt; status, Status::ReadFault);
    assert_eq!(rt; sink.bytes(), b"refused read\n".as_slice());
    Ok(())
}

#[test]
fn tells_a_failing_write(rt: HostRuntime) -> Result<(), Fail> {
    let alloc = rt.alloc();
    let words = split(alloc, "group 1")?;
    let mut failing = Vec::new(alloc);
    failing.push(2u64)?;
    let mut source = MemorySource::new(right_text(alloc)?, 100, Vec::new(alloc));
    let mut sink = MemorySink::new(alloc, 10, failing);
    let status = run(&rt, alloc, &words, &mut source, &mut sink, &OpenGate);
    assert_eq!(rt; status, Status::WriteFault);
    assert_eq!(rt; sink.bytes(), b"levels 5 5 5 5\nsize_".as_slice());
    Ok(())
}

// A reader of at most 100 bytes a call, whose second call fails in this way.
#[derive(Drop)]
struct FailingReader<'a> {
    text: &'a [u8],
    calls: u32,
    kind: ErrorKind,
}

impl Read for FailingReader<'_> {
    fn read(&mut self, buf: &mut [u8]) -> io::Result<usize> {
        self.calls = self.calls.saturating_add(1);
        if self.calls == 2 {
            return Err(io::Error::from(self.kind));
        }
        let n = self.text.len().min(buf.len()).min(100);
        let (front, rest) = self.text.split_at(n);
        buf[..n].copy_from_slice(front);
        self.text = rest;
        Ok(n)
    }
}

#[test]
fn reads_std_streams(rt: HostRuntime) -> Result<(), Fail> {
    let alloc = rt.alloc();
    let words = split(alloc, "group 1")?;
    let text = right_text(alloc)?;
    for (kind, want, line) in [
        (
            ErrorKind::TimedOut,
            Status::ReadFault,
            b"refused read\n".as_slice(),
        ),
        (ErrorKind::Interrupted, Status::Done, REPORT),
    ] {
        let mut source = ReadSource::new(FailingReader {
            text: &text,
            calls: 0,
            kind,
        });
        let mut sink = PlainSink::new(alloc);
        let status = run(&rt, alloc, &words, &mut source, &mut sink, &OpenGate);
        assert_eq!(rt; status, want);
        assert_eq!(rt; sink.bytes(), line);
    }
    Ok(())
}

// A writer of at most `most` bytes a call. The calls with these numbers, from 1, fail in this way; writes
// and flushes are counted together.
#[derive(Drop)]
struct FailingWriter {
    bytes: Vec<u8>,
    most: usize,
    calls: u32,
    failing: u32,
    kind: ErrorKind,
}

impl FailingWriter {
    fn fails(&mut self) -> bool {
        self.calls = self.calls.saturating_add(1);
        self.calls == self.failing
    }
}

impl Write for FailingWriter {
    fn write(&mut self, buf: &[u8]) -> io::Result<usize> {
        if self.fails() {
            return Err(io::Error::from(self.kind));
        }
        let n = self.most.min(buf.len());
        self.bytes.extend_from_slice(&buf[..n])?;
        Ok(n)
    }

    fn flush(&mut self) -> io::Result<()> {
        if self.fails() {
            return Err(io::Error::from(self.kind));
        }
        Ok(())
    }
}

#[test]
fn writes_std_streams(rt: HostRuntime) -> Result<(), Fail> {
    let alloc = rt.alloc();
    let words = split(alloc, "group 1")?;
    for (most, failing, kind, want, count) in [
        (3, 0, ErrorKind::TimedOut, Status::Done, REPORT.len()),
        (1000, 1, ErrorKind::Interrupted, Status::Done, REPORT.len()),
        (10, 4, ErrorKind::Interrupted, Status::Done, REPORT.len()),
        (10, 3, ErrorKind::TimedOut, Status::WriteFault, 10),
        (10, 4, ErrorKind::TimedOut, Status::WriteFault, 20),
        (0, 0, ErrorKind::TimedOut, Status::WriteFault, 0),
    ] {
        let mut writer = FailingWriter {
            bytes: Vec::new(alloc),
            most,
            calls: 0,
            failing,
            kind,
        };
        let text = right_text(alloc)?;
        let mut source = ReadSource::new(text.as_slice());
        let mut sink = WriteSink::new(&mut writer);
        let status = run(&rt, alloc, &words, &mut source, &mut sink, &OpenGate);
        assert_eq!(rt; status, want);
        assert_eq!(rt; Some(writer.bytes.as_slice()), REPORT.get(..count));
    }
    Ok(())
}

// Counts the tiles that worker 0 is told to have claimed.
#[derive(Drop)]
struct CountingGate(AtomicU64);

impl Gate for CountingGate {
    fn claimed(&self, worker: usize, _tile: usize) {
        if worker == 0 {
            self.0.fetch_add(1, Ordering::SeqCst);
        }
    }
}

#[test]
fn tells_the_gate(rt: HostRuntime) -> Result<(), Fail> {
    let alloc = rt.alloc();
    let words = split(alloc, "group 1")?;
    let mut source = PlainSource::new(right_text(alloc)?);
    let mut sink = PlainSink::new(alloc);
    let gate = CountingGate(AtomicU64::new(0));
    let status = run(&rt, alloc, &words, &mut source, &mut sink, &gate);
    assert_eq!(rt; status, Status::Done);
    assert_eq!(rt; gate.0.load(Ordering::SeqCst), 1);
    Ok(())
}

#[test]
fn numbers_statuses(rt: HostRuntime) {
    let error = GroupError::EmptyTile { tile: 0 };
    assert_eq!(rt; Status::Done.code(), 0);
    assert_eq!(rt; Status::Group(error).code(), 7);
    assert_eq!(rt; Status::WriteFault.code(), 8);
}

#[test]
fn writes_later_blocks_over_earlier_ones(rt: HostRuntime) -> Result<(), Fail> {
    let mut small = Block::default();
    small.bsize = BlockSize::BLOCK_4X4;
    let mut wide = Block::default();
    wide.bsize = BlockSize::BLOCK_8X4;
    let lines = [
        BlockLine {
            x: 0,
            y: 0,
            cols: 2,
            rows: 2,
            block: small,
        },
        BlockLine {
            x: 1,
            y: 1,
            cols: 2,
            rows: 1,
            block: wide,
        },
    ];
    let blocks = blocks_said(rt.alloc(), 3, 2, &lines)?;
    let mut sizes = Vec::new(rt.alloc());
    for block in &blocks {
        sizes.push(block.bsize)?;
    }
    let want = [
        BlockSize::BLOCK_4X4,
        BlockSize::BLOCK_4X4,
        BlockSize::BLOCK_64X64,
        BlockSize::BLOCK_4X4,
        BlockSize::BLOCK_8X4,
        BlockSize::BLOCK_8X4,
    ];
    assert_eq!(rt; sizes.as_slice(), want.as_slice());
    Ok(())
}

#[test]
fn reports(rt: HostRuntime) -> Result<(), Fail> {
    let plane: Plane<u8> = Plane::new(rt.alloc(), 2, 2, 0, 0, 0, 0)?;
    let rect = Rect {
        x: 0,
        y: 0,
        width: 2,
        height: 2,
    };
    let samples: [u8; 4] = [100, 101, 102, 255];
    let region = PlaneRegion::from_part(&samples, 2, &plane.cfg, rect);
    let results = Results {
        levels: [5, 63, 0, 1],
        size_bytes: 2,
        context_tile: 10,
        group: &[0, 255],
        wide: false,
    };
    let text = report(rt.alloc(), &results, &[region])?;
    let want =
        b"levels 5 63 0 1\nsize_bytes 2\ncontext_tile 10\ngroup 00ff\nplane 0\n6465\n66ff\nend\n";
    assert_eq!(rt; text.as_slice(), want.as_slice());
    Ok(())
}

#[test]
fn fills_a_frame(rt: HostRuntime) -> Result<(), Fail> {
    let alloc = rt.alloc();
    let format = FrameFormat {
        width: 3,
        height: 1,
        sampling: ChromaSampling::Cs420,
        depth: 10,
    };
    let source = Three {
        y: vec![in alloc; vec![in alloc; 5u16, 6, 7]?]?,
        u: vec![in alloc; vec![in alloc; 8u16, 9]?]?,
        v: vec![in alloc; vec![in alloc; 10u16, 11]?]?,
    };
    let frame = source_frame(alloc, &format, &source)?;
    for (plane, first, last) in [
        (&frame.planes.y, 5, 7),
        (&frame.planes.u, 8, 9),
        (&frame.planes.v, 10, 11),
    ] {
        assert!(rt; plane.samples.first() == Some(&first));
        assert!(rt; plane.samples.last() == Some(&last));
    }
    Ok(())
}

// The summary of the frame of 200 by 16 samples that 7 makes: its text was written by another program, and
// `group 1` reported it.
const OWN_SUMMARY: &[u8] =
    b"levels 2 1 2 1\nsize_bytes 2\ncontext_tile 1\ngroup_len 1903\nsum 0 95303\nsum 1 69328\nsum 2 121088\nend\n";

#[test]
fn generates_a_small_frame(rt: HostRuntime) -> Result<(), Fail> {
    let alloc = rt.alloc();
    let mut header = OWN_HEADER;
    header.format.width = 200;
    header.format.height = 16;
    header.target.rows_log2 = 0;
    for workers in [1, 2] {
        let tiling = tiling_of(&header).expect(&rt, "the frame has a tiling");
        let text = generated(alloc, &header, tiling, 7)?;
        let (status, printed) = group_of(&rt, alloc, text, Form::Summary, workers, &OpenGate)?;
        assert_eq!(rt; status, Status::Done);
        assert_eq!(rt; printed.as_slice(), OWN_SUMMARY);
    }
    Ok(())
}
