//! What is drawn for a trial: a grid, layers and a list of calls; and the tables of the grid's sheet.
use auction::{Answer, Call};
use grids::Grid;
use grids::draws::Draw;
use refusals::Refusal;
use sources::Entry;
use std::alloc::{AllocError, Global};

// How many calls a list has.
pub(crate) const CALLS: usize = 60;

// What a list of calls answers.
pub(crate) type Answers = [Result<Answer, Refusal>; CALLS];

pub(crate) const NO_ANSWERS: Answers = [Ok(Answer::Accepted); CALLS];

// A sheet's worths, the numbers of the layers above it, and the calls.
#[derive(Drop)]
pub(crate) struct Trial {
    pub(crate) grid: Grid,
    pub(crate) factor: u32,
    pub(crate) floor: u64,
    pub(crate) calls: [Call; CALLS],
}

impl Trial {
    pub(crate) fn draw(draw: &mut Draw) -> Trial {
        let grid = Grid::draw(draw, 20);
        Trial {
            grid,
            factor: 1 + draw.below(8) as u32,
            floor: draw.below(grid.ceiling.saturating_add(2)),
            calls: draw_calls(draw, &grid),
        }
    }
}

// The tables of a grid.
#[derive(Drop)]
pub(crate) struct Tables {
    pub(crate) starts: Vec<usize>,
    pub(crate) entries: Vec<Entry>,
}

pub(crate) fn tables_of(heap: Global, grid: &Grid) -> Result<Tables, AllocError> {
    let mut starts = vec![in heap; 0]?;
    let mut entries = Vec::new(heap);
    for row in grid.worths.iter().take(grid.carriers) {
        entries.extend(
            row.iter()
                .enumerate()
                .filter(|(_, worth)| **worth > 0)
                .map(|(job, worth)| Entry { job, worth: *worth }),
        )?;
        starts.push(entries.len())?;
    }
    Ok(Tables { starts, entries })
}

// A random question. Its number may be one too large.
fn draw_question(draw: &mut Draw, carrier: usize, job: usize) -> Call {
    match draw.below(5) {
        0 => Call::PriceOf(job),
        1 => Call::HolderOf(job),
        2 => Call::StandingOf(carrier),
        3 => Call::TotalWorth,
        _ => Call::AllCounts,
    }
}

// A random number below some, or sometimes a limit or the number above it.
fn draw_near(draw: &mut Draw, some: u64, limit: u64) -> u64 {
    if draw.below(16) == 0 {
        limit.saturating_add(draw.below(2))
    } else {
        draw.below(some)
    }
}

// A random call, with numbers that are mostly good.
fn draw_call(draw: &mut Draw, grid: &Grid) -> Call {
    let carrier = draw.below((grid.carriers as u64).saturating_add(1)) as usize;
    let job = draw.below((grid.jobs as u64).saturating_add(1)) as usize;
    match draw.below(36) {
        0 => Call::Start {
            step: draw_near(draw, 4, 1 << 36),
            lanes: draw_near(draw, 5, 32) as usize,
        },
        1..=8 => Call::Summon(carrier),
        9..=18 => Call::Look(carrier),
        19..=26 => Call::Settle(carrier),
        27..=30 => Call::Run {
            depth: draw_near(draw, 5, 128) as usize,
            budget: draw.below(30),
        },
        _ => draw_question(draw, carrier, job),
    }
}

// A random list of calls. Three of four begin with a start.
fn draw_calls(draw: &mut Draw, grid: &Grid) -> [Call; CALLS] {
    let starts = draw.below(4) > 0;
    let mut calls = [Call::Start { step: 1, lanes: 2 }; CALLS];
    for call in calls.iter_mut().skip(usize::from(starts)) {
        *call = draw_call(draw, grid);
    }
    calls
}
