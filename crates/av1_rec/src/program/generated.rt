ghost use Rattle.std.specs.Prelude.{◌≡◌, IfOk};
ghost use Rattle.av1_rec.specs.Answer.{generated_answer, IsOfText};

use crate::generated::{HEADER, generated};
use crate::program::group::group_of;
use crate::program::refusals::refused;
use crate::program::report::Form;
use crate::program::status::Status;
use crate::text::tiling_of;
use av1_frame::Gate;
use std::alloc::{AllocError, Global};
use std::thread::Threads;

/// The answer to a seed: the summary of the frame that is made from the seed.
#[tactic(auto, unfolding(crate::specs::Answer::generated_answer), using(crate::proofs::Depths::narrow_depth))]
pub fn generated_answer<R: Threads + Sync, G: Gate>(
    rt: &R,
    alloc: Global,
    seed: u32,
    workers: usize,
    gate: &G,
) -> Result<(Status, Vec<u8>), AllocError>
    ensures value { IfOk result (λ x. (x.0, x.1.items) ≡ generated_answer seed) }
    ensures kind { IfOk result (λ x. IsOfText x.0) }
{
    match tiling_of(&HEADER) {
        Some(tiling) => {
            let Ok(text) = generated(alloc, &HEADER, tiling, seed) else {
                return Err(AllocError);
            };
            group_of(rt, alloc, text, Form::Summary, workers, gate)
        }
        None => refused(alloc, Status::NoTiling),
    }
}
