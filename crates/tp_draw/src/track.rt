//! A lane at a line.
ghost use Rattle.std.specs.Prelude.{◌≡◌, map, IfOk};
ghost use Rattle.tp_draw.specs.Bands.{moved, fresh};

use crate::band::{restarted, turned};
use crate::lanes::is_of_site;
use crate::{Band, Lane, News};
use std::alloc::Global;
use tp_names::NoMemory;

/// A lane at a line: its band, and that its site is down.
#[derive(Clone, Copy)]
pub(crate) struct Track {
    pub lane: Lane,
    pub band: Band,
    pub down: bool,
}

/// The lanes before the first line.
pub(crate) fn first_tracks(alloc: Global, lanes: &[Lane]) -> Result<Vec<Track>, NoMemory>
    ensures { IfOk result (λ tracks. tracks.items ≡ map fresh lanes.now) }
{
    let mut tracks = Vec::new(alloc);
    for lane in lanes {
        tracks.push(Track {
            lane: *lane,
            band: Band::Quiet,
            down: false,
        })?;
    }
    Ok(tracks)
}

/// Carries the lanes over a line that tells this.
pub(crate) fn move_all(tracks: &mut [Track], news: &News)
    ensures { tracks.new ≡ map (moved news.now) tracks.old }
{
    for track in tracks.iter_mut() {
        *track = moved(news, *track);
    }
}

fn moved(news: &News, track: Track) -> Track
    ensures { result ≡ moved news.now track }
{
    let Track { lane, band, down } = track;
    match news {
        News::Nothing => track,
        News::Stops { site } if is_of_site(&lane, site) => Track {
            lane,
            band,
            down: true,
        },
        News::Starts { site } if is_of_site(&lane, site) => Track {
            lane,
            band: restarted(band),
            down: false,
        },
        News::Turns { node, turn } if lane.node == *node => Track {
            lane,
            band: turned(*turn, band),
            down,
        },
        _ => track,
    }
}
