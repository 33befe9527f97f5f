//! Performs the calls of a log on a hall over a source, under the layers of the log.
ghost use Rattle.auction.specs.Calls.{answers_from};
ghost use Rattle.replaying.specs.Logs.{under};
ghost use Rattle.std.specs.Prelude.{◌≡◌, IfOk, None};

use crate::line::Layer;
use crate::log::Layers;
use auction::{Answer, Call};
use hall::replay;
use refusals::Refusal;
use sources::{Floor, Source, Times};
use std::alloc::{AllocError, Global};

// Performs the calls on a new hall over the source, and gives the answers. It fails only for want of memory.
fn perform<S: Source + Drop>(
    heap: Global,
    source: S,
    calls: &[Call],
) -> Result<Vec<Result<Answer, Refusal>>, AllocError>
    ensures { IfOk result (λ answers. answers.items ≡ answers_from (S.Source.meaning source) None calls.now) }
{
    let mut answers = vec![in heap; Ok(Answer::Accepted); calls.len()]?;
    let _ = replay(source, calls, &mut answers);
    Ok(answers)
}

// The same, with the source under a layer, if there is one.
fn perform_under<S: Source + Drop>(
    heap: Global,
    source: S,
    layer: Option<Layer>,
    calls: &[Call],
) -> Result<Vec<Result<Answer, Refusal>>, AllocError>
    ensures { IfOk result (λ answers. answers.items ≡ answers_from (under layer (S.Source.meaning source)) None calls.now) }
{
    let below = source;
    match layer {
        None => perform(heap, below, calls),
        Some(Layer::Times(factor)) => perform(heap, Times { below, factor }, calls),
        Some(Layer::Floor(floor)) => perform(heap, Floor { below, floor }, calls),
    }
}

// The same, with the source under two layers, if there are any.
pub(crate) fn perform_layered<S: Source + Drop>(
    heap: Global,
    source: S,
    layers: Layers,
    calls: &[Call],
) -> Result<Vec<Result<Answer, Refusal>>, AllocError>
    ensures { let pile = under layers.second (under layers.nearest (S.Source.meaning source)) in
        IfOk result (λ answers. answers.items ≡ answers_from pile None calls.now) }
{
    let below = source;
    let Layers { nearest, second } = layers;
    match nearest {
        None => perform_under(heap, below, second, calls),
        Some(Layer::Times(factor)) => perform_under(heap, Times { below, factor }, second, calls),
        Some(Layer::Floor(floor)) => perform_under(heap, Floor { below, floor }, second, calls),
    }
}
