// One row of a run.
ghost use Rattle.std.specs.Prelude.{◌≡◌, [], ◌++◌, ◌+◌, ◌-◌, take};
ghost use Rattle.combinators.specs.Choice.{pick};
ghost use Rattle.cascade.specs.declared.slots.Cascade.TheVariants.{Crate};
ghost use Rattle.page.specs.PathOf.{attributes_from};
ghost use Rattle.attributes.specs.Merging.{InlineRoom};
ghost use Rattle.styles.specs.Merged.{merged_row, late_declared};
ghost use Rattle.styles.specs.StyleCall.{attributes_contents, placed_attributes};
ghost use Rattle.runner.specs.PageRows.{no_style};
ghost use Rattle.runner.specs.Run.{document_step, step_on};
ghost use Rattle.runner.specs.State.{part_width, part_place};
ghost use Rattle.stepping.specs.Lent.{given_of, handed_of, StepLentOf, Kept};
ghost use Rattle.stepping.specs.Opened.{OpenLent, Below, child_below_of, ChildOpened, child_element_of, ElementOpened};
ghost use Rattle.stepping.specs.Passing.{SheetLent};

use crate::passing::{pass_document, pass_element};
use attributes::merging::merge_attributes;
use cascade::rows::{StyleRow, clear_row, inherit};
use cascade::slots::Cascade;
use combinators::lent::Stores;
use matching::elements::Attributes;
use page::rows::{OTHER, kind_of, name_of};
use styles::settings::Settings;
use sweeps::elements::Handed;
use sweeps::parts::{pair_at, put_pair};

// Where in a part the count of the element children stands.
const TO_COUNT: usize = 0;

// A row of a page as its step is handed it: the six numbers of the node, its attribute rows, and the text that they name their texts in. (It is no `Page` of one
// row: the node says at which row of the page's attributes its own begin, and in these it would read past them.)
#[derive(Clone, Copy)]
pub struct NodeRow<'a> {
    pub node: &'a [u32],
    pub attributes: &'a [u32],
    pub text: &'a [u8],
}

impl<'a> NodeRow<'a> {
    // All of its attributes. (One line, as in `Handed` of sweeps: see there.)
    pub fn attributes(self) -> Attributes<'a>
        ensures { attributes_from result.rows.now result.text.now result.count 0 ≡ given_of self.entry }
    {
        Attributes::of_rows(self.attributes, self.text)
    }
}

// How many bytes the part of the state at a depth has: one more than the sheet.
pub fn part_width(compiled: &[u8]) -> usize
    ensures { result ≡ part_width compiled.now }
{
    compiled.len() + 1
}

// The document: its part of the state, and no style.
fn open_document(compiled: &[u8], out: &mut StyleRow, state: &mut [u8])
    requires { OpenLent compiled.now state.old }
    ensures out_after { out.new ≡ no_style }
    ensures state_after { state.new ≡ (document_step compiled.now state.old []).state }
{
    let width = part_width(compiled);
    let (own, behind) = state.split_at_mut(width);
    pass_document(compiled, own, &mut behind[..width]);
    put_pair(own, TO_COUNT, 0);
    clear_row(out);
}

// An element, by its own part of the state and its parent's: its style row without what its attributes say, its own part, and one child more in its parent's.
fn open_child(
    compiled: &[u8],
    row: NodeRow<'_>,
    above: &mut [u8],
    own: &mut [u8],
    out: &mut StyleRow,
)
    requires { SheetLent compiled.now above.old own.old }
    ensures { ChildOpened compiled.now (child_below_of row.entry above.old) above.old own.old out.old above.new own.new out.new }
{
    let place = pair_at(above, TO_COUNT) + 1;
    put_pair(above, TO_COUNT, place);
    inherit(out, Cascade::Crate);
    let element = Handed {
        name: name_of(row.node, row.text, 0),
        attributes: row.attributes,
        text: row.text,
        place,
    };
    pass_element(compiled, above, own, &element, out);
    put_pair(own, TO_COUNT, 0);
}

// The same, by the whole state.
fn open_element(
    compiled: &[u8],
    row: NodeRow<'_>,
    depth: usize,
    out: &mut StyleRow,
    state: &mut [u8],
)
    requires open_lent { OpenLent compiled.now state.old }
    requires below { Below depth }
    ensures { ElementOpened compiled.now (child_element_of row.entry state.old (part_place compiled.now (depth - 1))) (depth - 1) out.old state.old out.new state.new }
{
    let width = part_width(compiled);
    let (_, rest) = state.split_at_mut((depth - 1) * width);
    let (above, behind) = rest.split_at_mut(width);
    open_child(compiled, row, above, &mut behind[..width], out);
}

// What the attributes of a row say, if document styles are on; the fill behind their contents, whose starts count from `base` on. What the work stores hold
// afterwards, and the texts behind that fill, is left free. (The fill is told and answered, here and in what calls this: a `Writer` of the texts beside the other
// stores would be made of parts of what `stores` is lent, which the borrow checker does not cover, and those who read sheets into the same stores begin at 0.)
fn merge_inline(
    settings: Settings,
    row: NodeRow<'_>,
    base: usize,
    out: &mut StyleRow,
    stores: &mut Stores<'_>,
    fill: usize,
) -> usize
    requires { InlineRoom (given_of row) base fill stores.old.rules.now stores.old.tokens.now stores.old.brackets.now stores.old.texts.now }
    ensures out_after { out.new ≡ merged_row Crate out.old (late_declared Crate (placed_attributes (base + fill) (pick settings.document_styles (given_of row.entry) []))) }
    ensures texts_after { take result stores.new.texts.now ≡ take fill stores.old.texts.now ++ attributes_contents (pick settings.document_styles (given_of row.entry) []) }
    ensures kept { Kept stores.old stores.new result }
{
    if settings.document_styles {
        return merge_attributes(Cascade::Crate, row.attributes(), base, out, stores, fill);
    }
    fill
}

// The step of a row. `out` is its parent's style row at entry and its own at exit; the fill behind its texts. What `rules`, `tokens` and `brackets` hold afterwards,
// and `texts` behind that fill, is left free. (Style row, state and stores come one by one: see running/src/rows.rt.)
pub fn step(
    settings: Settings,
    compiled: &[u8],
    row: NodeRow<'_>,
    depth: usize,
    out: &mut StyleRow,
    state: &mut [u8],
    stores: &mut Stores<'_>,
    fill: usize,
) -> usize
    requires { StepLentOf compiled.now row depth state.old stores.old fill }
    ensures texts_after { record { row = out.new; state = state.new; texts = take result stores.new.texts.now }
        ≡ step_on compiled.now settings (handed_of row.entry) depth out.old state.old (take fill stores.old.texts.now) }
    ensures kept { Kept stores.old stores.new result }
{
    if kind_of(row.node, 0) == OTHER {
        clear_row(out);
        return fill;
    }
    if depth == 0 {
        open_document(compiled, out, state);
        return fill;
    }
    open_element(compiled, row, depth, out, state);
    merge_inline(settings, row, compiled.len(), out, stores, fill)
}
