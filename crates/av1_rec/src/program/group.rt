ghost use Rattle.std.specs.Prelude.{◌≡◌, ◌≤◌, ◌<◌, All, map, IfOk, IfErr, OnOk};
ghost use Rattle.av1_plane.specs.Layout.{visible, visible_rows};
ghost use Rattle.av1_plane.specs.Planes.{plane_numbers};
ghost use Rattle.av1_tiling.specs.Frames.{FitsDepth, IsFrame, IsStateFor};
ghost use Rattle.av1_frame.specs.Outcome.{IsAccepted, IsCause};
ghost use Rattle.std.specs.Result.{IsErr};
ghost use Rattle.av1_frame.specs.declared.group_error.GroupError.TheVariants.{OutOfMemory};
ghost use Rattle.av1_rec.specs.declared.program.status.Status.TheVariants.{Group};
ghost use Rattle.av1_rec.specs.Statuses.{refusal_line};
ghost use Rattle.av1_rec.specs.Answer.{IsOfText};
ghost use Rattle.av1_rec.specs.declared.program.report.Form.TheVariants as forms;
ghost use Rattle.av1_rec.specs.Group.{said_job, shown, reported, reported_text, group_answer};
ghost use Rattle.av1_rec.specs.Read.{IsRead, IsReadText};
ghost use Rattle.av1_rec.specs.Report.{region_rows};
ghost use Rattle.av1_rec.specs.Summary.{IsSmall};
ghost use Rattle.av1_rec.specs.Text.{said, frame_said};

use crate::coder::recorded_coder::RecordedCoder;
use crate::frame::begin::{frame_invariants, start_state};
use crate::program::refusals::refused;
use crate::program::report::{Form, Results, report};
use crate::program::status::Status;
use crate::program::summary::summary;
use crate::text::{FrameText, Text};
use av1_block::FrameBlocks;
use av1_frame::{Gate, GroupError, encode_tile_group};
use av1_plane::{Pixel, Plane, PlaneRegion, Rect};
use av1_tiling::{FrameInvariants, FrameState};
use std::alloc::{AllocError, Global};
use std::thread::Threads;

// The picture in a plane.
fn picture_region<T: Pixel>(plane: &Plane<T>, width: usize, height: usize) -> PlaneRegion<'_, T>
    requires some { (0 < plane.now.cfg.width) × (0 < plane.now.cfg.height) }
    requires width { width ≤ plane.now.cfg.width }
    requires height { height ≤ plane.now.cfg.height }
    requires narrow { width ≤ 65536 }
    requires low { height ≤ 65536 }
    ensures rows { region_rows T.number result
        ≡ visible_rows plane.now.cfg width height (plane_numbers T.number plane.now) }
    ensures small { IsSmall result }
{
    let rect = Rect {
        x: 0,
        y: 0,
        width,
        height,
    };
    PlaneRegion::new(plane, rect)
}

// A side in a plane whose sides are halved `dec` times, 0 or 1.
fn visible(side: usize, dec: usize) -> usize
    requires side { side ≤ 65536 }
    requires dec { dec ≤ 1 }
    ensures { result ≡ visible side dec }
{
    if dec == 0 { side } else { (side + 1) / 2 }
}

// The text of these results and of the visible part of each plane.
fn put_frame<T: Pixel>(
    alloc: Global,
    results: &Results<'_>,
    planes: &[PlaneRegion<'_, T>],
    form: Form,
) -> Result<Vec<u8>, AllocError>
    requires { All (λ r. IsSmall r) planes.now }
    ensures { IfOk result (λ text. text.items ≡ reported_text form (record {
      levels = results.now.levels;
      size_bytes = results.now.size_bytes;
      context_tile = results.now.context_tile;
      group = results.now.group.now;
      wide = results.now.wide;
      planes = map (region_rows T.number) planes.now;
    })) }
{
    match form {
        Form::Report => report(alloc, results, planes),
        Form::Summary => summary(alloc, results, planes),
    }
}

// The report of a coded frame, or its summary.
#[tactic(auto, using(crate::proofs::Sums::small_planes))]
fn frame_report<T: Pixel>(
    alloc: Global,
    fi: &FrameInvariants<T>,
    fs: &FrameState<T>,
    group: &[u8],
    form: Form,
) -> Result<Vec<u8>, AllocError>
    requires frame { IsFrame T.limit fi.now }
    requires state { IsStateFor fi.now fs.now }
    ensures { IfOk result
        (λ text. text.items ≡ reported_text form (shown fi.now fs.now group.now)) }
{
    let results = Results {
        levels: fs.deblock.levels,
        size_bytes: fs.max_tile_size_bytes,
        context_tile: fs.context_update_tile_id,
        group,
        wide: fi.sequence.bit_depth > 8,
    };
    let luma = picture_region(&fs.rec.planes[0], fi.width, fi.height);
    let Some((xdec, ydec)) = fi.sequence.chroma_sampling.get_decimation() else {
        return put_frame(alloc, &results, &[luma], form);
    };
    let width = visible(fi.width, xdec);
    let height = visible(fi.height, ydec);
    let u = picture_region(&fs.rec.planes[1], width, height);
    let v = picture_region(&fs.rec.planes[2], width, height);
    put_frame(alloc, &results, &[luma, u, v], form)
}

// The report of what the recorded results make of a text's frame, or its summary.
fn coded_report<T: Pixel + Drop + Send + Sync, R: Threads + Sync, G: Gate>(
    rt: &R,
    alloc: Global,
    text: Text<T>,
    form: Form,
    workers: usize,
    gate: &G,
) -> Result<Vec<u8>, GroupError>
    requires read { IsRead (said T.number text) }
    requires depth { FitsDepth T.limit text.header.format.depth }
    ensures report { IfOk result
        (λ printed. printed.items
        ≡ reported_text form (reported (said_job (said T.number text)))) }
    ensures accepted { OnOk result (IsAccepted (said_job (said T.number text))) }
    ensures causes { IfErr result (IsCause (said_job (said T.number text))) }
{
    let Text {
        header,
        tiling,
        source,
        tiles,
    } = text;
    let fi = frame_invariants(alloc, &header, tiling)?;
    let mut fs = start_state(alloc, &fi, &header, source)?;
    let mut blocks = FrameBlocks::new(alloc, fi.w_in_b, fi.h_in_b)?;
    let coder = RecordedCoder { tiling, tiles };
    let group = encode_tile_group(rt, alloc, &fi, &mut fs, &mut blocks, &coder, workers, gate)?;
    Ok(frame_report(alloc, &fi, &fs, &group, form)?)
}

/// The answer to a text of this sample type: a status, and what is printed.
#[tactic(auto, unfolding(crate::specs::Group::group_answer))]
pub fn group_of<T: Pixel + Drop + Send + Sync, R: Threads + Sync, G: Gate>(
    rt: &R,
    alloc: Global,
    text: Text<T>,
    form: Form,
    workers: usize,
    gate: &G,
) -> Result<(Status, Vec<u8>), AllocError>
    requires read { IsRead (said T.number text) }
    requires depth { FitsDepth T.limit text.header.format.depth }
    ensures value { IfOk result (λ x. (x.0, x.1.items) ≡ group_answer form (said T.number text)) }
    ensures kind { IfOk result (λ x. IsOfText x.0) }
{
    match coded_report(rt, alloc, text, form, workers, gate) {
        Ok(printed) => Ok((Status::Done, printed)),
        Err(error) => group_refusal(alloc, error),
    }
}

// Why a group isn't coded, as an answer. Want of memory is handed on.
fn group_refusal(alloc: Global, error: GroupError) -> Result<(Status, Vec<u8>), AllocError>
    ensures status { IfOk result (λ x. x.0 ≡ Group error) }
    ensures line { IfOk result (λ x. x.1.items ≡ refusal_line (Group error)) }
    ensures memory { error ≡ OutOfMemory → IsErr result }
{
    match error {
        GroupError::OutOfMemory => Err(AllocError),
        refused_for => refused(alloc, Status::Group(refused_for)),
    }
}

/// The answer to a text: a status, and what is printed.
pub fn group<R: Threads + Sync, G: Gate>(
    rt: &R,
    alloc: Global,
    text: FrameText,
    workers: usize,
    gate: &G,
) -> Result<(Status, Vec<u8>), AllocError>
    requires read { IsReadText text }
    ensures value { IfOk result (λ x. (x.0, x.1.items) ≡ group_answer forms.Report (frame_said text)) }
    ensures kind { IfOk result (λ x. IsOfText x.0) }
{
    match text {
        FrameText::Bytes(text) => group_of(rt, alloc, text, Form::Report, workers, gate),
        FrameText::Words(text) => group_of(rt, alloc, text, Form::Report, workers, gate),
    }
}
