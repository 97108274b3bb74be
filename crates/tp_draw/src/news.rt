//! What a line tells of the lanes.
ghost use Rattle.std.specs.Prelude.{◌≡◌, IfOk};
ghost use Rattle.tp_draw.specs.Bands.{news_of, news_of_log, news_of_told, news_of_event};

use crate::Band;
use crate::band::band_of;
use crate::event::event_of;
use std::alloc::Global;
use tp_model::{Line, LogWords, OutLine};
use tp_names::{NoMemory, SiteName};
use tp_records::Indication;

/// What becomes of a node.
#[derive(Clone, Copy)]
pub(crate) enum Turn {
    /// Its log says so now.
    Holds { band: Band },
    /// Its user is told to roll back.
    Rolls,
    /// Its user is told that the rollback is complete.
    Completes,
}

/// What a line tells of the lanes.
#[derive(Clone, Copy)]
pub(crate) enum News {
    Nothing,
    Stops { site: SiteName },
    Starts { site: SiteName },
    Turns { node: u16, turn: Turn },
}

/// What the line tells.
pub(crate) fn news_of(alloc: Global, line: &OutLine) -> Result<News, NoMemory>
    ensures { IfOk result (λ news. news ≡ news_of line.now) }
{
    match line {
        OutLine::Log { site, rec } => Ok(news_of_log(site, rec)),
        OutLine::Tell { node, indication } => Ok(news_of_told(*node, indication)),
        OutLine::Stopped { site, .. } => Ok(News::Stops { site: *site }),
        _ => {
            let event = event_of(alloc, line)?;
            Ok(news_of_event(&event))
        }
    }
}

fn news_of_event(event: &Option<Line>) -> News
    ensures { result ≡ news_of_event event.now }
{
    match event {
        Some(Line::Crash { site }) => News::Stops { site: *site },
        _ => News::Nothing,
    }
}

fn news_of_log(site: &SiteName, rec: &LogWords) -> News
    ensures { result ≡ news_of_log site.now rec.now }
{
    let (node, band) = match rec {
        LogWords::Boot { .. } => return News::Starts { site: *site },
        LogWords::Heuristic { .. } => return News::Nothing,
        LogWords::Ready { node, .. } => (*node, Band::InDoubt),
        LogWords::Commit { node, .. } => (*node, Band::Committed),
        LogWords::Damage { node, side, .. } => (*node, band_of(*side)),
        LogWords::End { node, .. } => (*node, Band::Quiet),
    };
    let turn = Turn::Holds { band };
    News::Turns { node, turn }
}

fn news_of_told(node: u16, indication: &Indication) -> News
    ensures { result ≡ news_of_told node indication.now }
{
    match indication {
        Indication::Rollback => News::Turns {
            node,
            turn: Turn::Rolls,
        },
        Indication::RollbackComplete { .. } => News::Turns {
            node,
            turn: Turn::Completes,
        },
        _ => News::Nothing,
    }
}
