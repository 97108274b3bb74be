//! What is the same in each SVG file.
ghost use Rattle.std.specs.Prelude.{◌≡◌, ◌++◌, OnOk};
ghost use Rattle.tp_draw.specs.Style.{style, tips, legend};

use crate::Picture;
use tp_names::NoMemory;

/// Puts the colors at the end of `out`.
#[tactic(auto, unfolding(crate::specs::Style::style))]
pub(crate) fn write_style(out: &mut Picture) -> Result<(), NoMemory>
    ensures { OnOk result (out.new ≡ out.old ++ style) }
{
    out.put_all(&[
        "<style>text{white-space:pre;fill:currentColor}\n",
        ".p{color:#1f2328}.f{color:#656d76}.c{color:#0058a8}.r{color:#b84300}.d{color:#8a3380}\n",
        ".g{fill:#fff}.b{fill:#eaeef2}.e{fill:#808080;fill-opacity:.1}.s{fill:#2f81f7;fill-opacity:.2}\n",
        ".t{fill:currentColor;fill-opacity:.15}.v{stroke:#afb8c1}.a{fill:none;stroke:currentColor}\n",
        ".l{paint-order:stroke;stroke:#fff;stroke-width:3px}.m{fill:currentColor}\n",
        ".h{fill:#fff;stroke:currentColor;stroke-width:1.5}.x{fill:none;stroke:currentColor;stroke-width:2}\n",
        ".i{fill:url(#i)}.y{fill:#79b4e8}.o{fill:#f2a36b}.k{fill:#fff;stroke:#1f2328;stroke-width:1.5}\n",
        "@media(prefers-color-scheme:dark){.p{color:#e6edf3}.f{color:#9198a1}.c{color:#6cb6ff}\n",
        ".r{color:#f69d50}.d{color:#dcbdfb}.g,.h,.k{fill:#0d1117}.b{fill:#212830}.v{stroke:#57606a}\n",
        ".l{stroke:#0d1117}.k{stroke:#e6edf3}.y{fill:#1f5f99}.o{fill:#8a4a1c}}</style>\n",
    ])
}

/// The tips of arrows, the hatching, and the ground.
#[tactic(auto, unfolding(crate::specs::Style::tips))]
pub(crate) fn write_tips(out: &mut Picture) -> Result<(), NoMemory>
    ensures { OnOk result (out.new ≡ out.old ++ tips) }
{
    out.put_all(&[
        "<defs>\n<marker id='p' viewBox='0 0 8 8' refX='8' refY='4' markerWidth='7' markerHeight='7' orient='auto'>",
        "<path class='m p' d='M0 0L8 4L0 8z'/></marker>\n",
        "<marker id='c' viewBox='0 0 8 8' refX='8' refY='4' markerWidth='7' markerHeight='7' orient='auto'>",
        "<path class='m c' d='M0 0L8 4L0 8z'/></marker>\n",
        "<marker id='r' viewBox='0 0 8 8' refX='8' refY='4' markerWidth='7' markerHeight='7' orient='auto'>",
        "<path class='m r' d='M0 0L8 4L0 8z'/></marker>\n",
        "<marker id='d' viewBox='0 0 8 8' refX='8' refY='4' markerWidth='7' markerHeight='7' orient='auto'>",
        "<path class='m d' d='M0 0L8 4L0 8z'/></marker>\n",
        "<marker id='x' viewBox='0 0 8 8' refX='4' refY='4' markerWidth='9' markerHeight='9'>",
        "<path class='x p' d='M1 1L7 7M1 7L7 1'/></marker>\n",
        "<marker id='n' viewBox='0 0 8 8' refX='4' refY='4' markerWidth='7' markerHeight='7'>",
        "<circle class='h f' cx='4' cy='4' r='3'/></marker>\n",
        "<pattern id='i' width='5' height='5' patternUnits='userSpaceOnUse'><rect class='g' width='5' height='5'/>",
        "<path class='a p' d='M-1 1L1 -1M0 5L5 0M4 6L6 4'/></pattern>\n",
        "</defs>\n<rect class='g' width='100%' height='100%'/>\n",
    ])
}

/// What each sign, band and color means.
#[tactic(auto, unfolding(crate::specs::Style::legend))]
pub(crate) fn write_legend(out: &mut Picture) -> Result<(), NoMemory>
    ensures { OnOk result (out.new ≡ out.old ++ legend) }
{
    out.put_all(&[
        "<path class='a p' d='M8 10H34' marker-end='url(#p)'/><text class='p' x='44' y='14'>frame, from send to take</text>\n",
        "<path class='a p' d='M8 28H34' stroke-dasharray='6 3' marker-end='url(#p)'/>",
        "<text class='p' x='44' y='32'>the same frame again</text>\n",
        "<path class='a p' d='M8 46H30' marker-end='url(#x)'/><text class='p' x='44' y='50'>lost, dropped or refused</text>\n",
        "<path class='a p' d='M8 64H30' stroke-dasharray='2 4' marker-end='url(#n)'/>",
        "<text class='p' x='44' y='68'>not delivered</text>\n",
        "<path class='m p' d='M18 78h8v8h-8z'/><text class='p' x='44' y='86'>record in the log</text>\n",
        "<path class='h p' d='M18 96h8v8h-8z'/><text class='p' x='44' y='104'>heuristic decision</text>\n",
        "<circle class='h p' cx='22' cy='118' r='4'/><text class='p' x='44' y='122'>the user is told</text>\n",
        "<circle class='m p' cx='22' cy='136' r='4'/><text class='p' x='44' y='140'>the node's state</text>\n",
        "<path class='i' d='M251 2h10v16h-10z'/><text class='p' x='276' y='14'>in doubt</text>\n",
        "<path class='y' d='M251 20h10v16h-10z'/><text class='p' x='276' y='32'>committed</text>\n",
        "<path class='o' d='M251 38h10v16h-10z'/><text class='p' x='276' y='50'>rolled back</text>\n",
        "<path class='k' d='M251 57h10v14h-10zl10 14m0-14l-10 14'/><text class='p' x='276' y='68'>crash, until the boot</text>\n",
        "<path class='s' d='M242 74h28v16h-28z'/><text class='p' x='276' y='86'>boot of a site</text>\n",
        "<path class='e' d='M242 92h28v16h-28z'/><text class='p' x='276' y='104'>event of the schedule</text>\n",
        "<text class='c' x='242' y='122'>commit</text><text class='r' x='300' y='122'>rollback</text>\n",
        "<text class='d' x='372' y='122'>damage</text>\n</g>\n</svg>\n",
    ])
}
