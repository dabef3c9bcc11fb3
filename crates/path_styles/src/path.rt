// The style of an element and of those above it, from the top down.
ghost use Rattle.std.specs.Prelude.{◌≡◌, ◌++◌, map, ℕ, ◌+◌, length, take, drop};
ghost use Rattle.syntax.specs.Style.{agent_origin, user_origin};
ghost use Rattle.cascade.specs.Row.{inherited_row, handed_at, finished_row, row_of};
ghost use Rattle.cascade.specs.Record.{from_rule, declared_by};
ghost use Rattle.combinators.specs.Lent.{KeptStores};
ghost use Rattle.page.specs.Lent.{element_in, path_in};
ghost use Rattle.styles.specs.Said.{rules_say, counted_attributes, sources_from};
ghost use Rattle.styles.specs.Computed.{cascaded};
ghost use Rattle.styles.specs.Merged.{merged_row, early_declared, late_declared};
ghost use Rattle.styles.specs.StyleCall.{attributes_contents, placed_attributes, inline_contents, path_contents, placed_from};
ghost use Rattle.attributes.specs.Merging.{InlineRoom};
ghost use Rattle.path_styles.specs.Tops.{RightTopsOf, sheet_selectors, TextsIn};
ghost use Rattle.path_styles.specs.Path.{kept_sheet, kept_sheets_of, SameKeptOf, SteadyOf, ElementRoomOf, EarlyRoom, PathRoomOf};

use crate::rules::SheetMerge;
use crate::tops::{ReadySheet, ReadySheets};
use attributes::merging::{merge_attributes, merge_early_attributes};
use cascade::rows::{StyleRow, clear_row, finish, handed_on, inherit};
use cascade::slots::Cascade;
use combinators::lent::Stores;
use matching::elements::Element;
use styles::settings::Settings;
use syntax::rows::{AGENT_ORIGIN, AUTHOR_ORIGIN, USER_ORIGIN};

// What the attributes of an element say before the author's rules. The stores come one by one, here and in `late_attributes`: they are parts of the call's stores, and of
// parts the borrow checker makes no struct; and they are two functions, since a closure that is lent the struct would bring the clauses of either along. `InlineRoom` is told the
// tokens in the place of the rules, as colours are read without rules.
fn early_attributes(
    cascade: Cascade,
    element: Element<'_>,
    out: &mut StyleRow,
    rules: &mut [u32],
    tokens: &mut [u32],
    brackets: &mut [u8],
    texts: &mut [u8],
    fill: usize,
)
    requires { InlineRoom (element_in element.page element.row).attributes 0 fill tokens.old tokens.old brackets.old texts.old }
    ensures by_index { (f : ℕ) → out.new ≡ merged_row cascade out.old (early_declared cascade (placed_attributes f (element_in element.entry.page element.entry.row).attributes)) }
    ensures rules_unchanged { rules.new ≡ rules.old }
    ensures texts_unchanged { take fill texts.new ≡ take fill texts.old }
{
    let mut stores = Stores {
        rules,
        tokens,
        brackets,
        texts,
    };
    merge_early_attributes(cascade, element.attributes(), out, &mut stores, fill);
}

// What they say behind the author's rules; the fill behind their contents.
fn late_attributes(
    cascade: Cascade,
    element: Element<'_>,
    out: &mut StyleRow,
    rules: &mut [u32],
    tokens: &mut [u32],
    brackets: &mut [u8],
    texts: &mut [u8],
    fill: usize,
) -> usize
    requires { InlineRoom (element_in element.page element.row).attributes 0 fill rules.old tokens.old brackets.old texts.old }
    ensures out_after { out.new ≡ merged_row cascade out.old (late_declared cascade (placed_attributes fill (element_in element.entry.page element.entry.row).attributes)) }
    ensures value { result ≡ fill + length (attributes_contents (element_in element.entry.page element.entry.row).attributes) }
    ensures texts_after { take result texts.new ≡ take fill texts.old ++ attributes_contents (element_in element.entry.page element.entry.row).attributes }
{
    let mut stores = Stores {
        rules,
        tokens,
        brackets,
        texts,
    };
    merge_attributes(cascade, element.attributes(), 0, out, &mut stores, fill)
}

// What stays the same on the whole path: the cascade, the settings, and the sheets that are ready to be asked.
#[derive(Clone, Copy)]
pub struct Styling {
    pub cascade: Cascade,
    pub settings: Settings,
    pub kept: ReadySheets,
}

impl Styling {
    // What the rules of a sheet say of an element.
    fn merge_sheet(
        &self,
        origin: u32,
        sheet: ReadySheet,
        stores: &Stores<'_>,
        element: Element<'_>,
        out: &mut StyleRow,
    )
        requires texts_in { TextsIn stores.now.texts.now self.now.kept.sheets.end sheet.styled.rules }
        requires right_tops { RightTopsOf element.page element.row (sheet_selectors stores.now.rules.now stores.now.texts.now self.now.kept.sheets.end sheet.styled.rules) (drop sheet.tops stores.now.tokens.now) }
        ensures { out.new ≡ merged_row self.now.cascade out.old (map (from_rule origin) (rules_say (path_in element.entry.page element.entry.row) (kept_sheet stores.now.rules.now stores.now.tokens.now stores.now.texts.now self.now.kept.sheets.end sheet))) }
    {
        let from = sheet.styled.rules.from;
        let texts = &stores.texts[from..self.kept.sheets.end];
        let merge = SheetMerge {
            cascade: self.cascade,
            origin,
            rows: stores.rules,
            texts,
            styles: stores.tokens,
            element,
        };
        merge.merge_rules(out, sheet);
    }

    // What an element begins with, and what the agent's and the user's rules say of it. `SteadyOf`, here and below: what is kept, and that the selectors'
    // numbers decide on the row, stays whatever is written behind it. It speaks of what lent stores hold, which no field of the sheets can.
    fn begin_element(&self, stores: &Stores<'_>, element: Element<'_>, out: &mut StyleRow)
        requires steady { SteadyOf self.now.kept element.page element.row stores.now }
        ensures { out.new ≡ merged_row self.now.cascade (inherited_row self.now.cascade out.old)
            (map (from_rule agent_origin) (rules_say (path_in element.entry.page element.entry.row) (kept_sheets_of self.now.kept stores.now).agent)
            ++ map (from_rule user_origin) (rules_say (path_in element.entry.page element.entry.row) (kept_sheets_of self.now.kept stores.now).user)) }
    {
        inherit(out, self.cascade);
        self.merge_sheet(AGENT_ORIGIN, self.kept.sheets.agent, stores, element, out);
        self.merge_sheet(USER_ORIGIN, self.kept.sheets.user, stores, element, out);
    }

    // What the attributes say before the author's rules, read behind what the call keeps in its stores, if document styles are on. Element, row, stores and fill stay
    // apart, here and below: the first two have nothing to do with how far the stores are filled, and the fill is a number that some functions answer anew.
    fn merge_early(
        &self,
        element: Element<'_>,
        out: &mut StyleRow,
        stores: &mut Stores<'_>,
        fill: usize,
    )
        requires { EarlyRoom self.now.kept (element_in element.page element.row) fill stores.old.tokens.now stores.old.brackets.now stores.old.texts.now }
        ensures by_index { (f : ℕ) → out.new ≡ merged_row self.now.cascade out.old (early_declared self.now.cascade (placed_attributes f (counted_attributes self.now.settings (element_in element.entry.page element.entry.row)))) }
        ensures texts_unchanged { take (self.now.kept.sheets.end + fill) stores.new.texts.now ≡ take (self.now.kept.sheets.end + fill) stores.old.texts.now }
        ensures same_kept { SameKeptOf self.now.kept stores.old stores.new }
        ensures kept { KeptStores stores.old stores.new }
    {
        if self.settings.document_styles {
            let behind = self.kept.behind;
            let end = self.kept.sheets.end;
            early_attributes(
                self.cascade,
                element,
                out,
                stores.rules,
                &mut stores.tokens[behind..],
                stores.brackets,
                &mut stores.texts[end..],
                fill,
            );
        }
    }

    // What they say behind the author's rules, read behind what is kept, if document styles are on; the fill behind the contents. `ElementRoomOf`, here and below: the values of the
    // element's attributes have room behind what is kept and behind the fill. It joins the element and the fill with the stores, which are written in between: a field of all of them would
    // be shown anew at each write.
    fn merge_late(
        &self,
        element: Element<'_>,
        out: &mut StyleRow,
        stores: &mut Stores<'_>,
        fill: usize,
    ) -> usize
        requires { ElementRoomOf self.now.kept (element_in element.page element.row) fill stores.old }
        ensures out_after { out.new ≡ merged_row self.now.cascade out.old (late_declared self.now.cascade (placed_attributes fill (counted_attributes self.now.settings (element_in element.entry.page element.entry.row)))) }
        ensures value { result ≡ fill + length (inline_contents self.now.settings (element_in element.entry.page element.entry.row)) }
        ensures texts_after { take (self.now.kept.sheets.end + result) stores.new.texts.now ≡ take (self.now.kept.sheets.end + fill) stores.old.texts.now ++ inline_contents self.now.settings (element_in element.entry.page element.entry.row) }
        ensures same_kept { SameKeptOf self.now.kept stores.old stores.new }
        ensures kept { KeptStores stores.old stores.new }
    {
        if self.settings.document_styles {
            let rows = self.kept.rows;
            let behind = self.kept.behind;
            let end = self.kept.sheets.end;
            late_attributes(
                self.cascade,
                element,
                out,
                &mut stores.rules[rows..],
                &mut stores.tokens[behind..],
                stores.brackets,
                &mut stores.texts[end..],
                fill,
            )
        } else {
            fill
        }
    }

    // What an element begins with, and all that is declared for it; the fill behind its contents.
    fn declare_element(
        &self,
        element: Element<'_>,
        out: &mut StyleRow,
        stores: &mut Stores<'_>,
        fill: usize,
    ) -> usize
        requires steady { SteadyOf self.now.kept element.page element.row stores.old }
        requires element_room { ElementRoomOf self.now.kept (element_in element.page element.row) fill stores.old }
        ensures out_after { out.new ≡ merged_row self.now.cascade (inherited_row self.now.cascade out.old)
            (declared_by self.now.cascade (sources_from (kept_sheets_of self.now.kept stores.old) (placed_attributes fill (counted_attributes self.now.settings (element_in element.entry.page element.entry.row))) (path_in element.entry.page element.entry.row))) }
        ensures value { result ≡ fill + length (inline_contents self.now.settings (element_in element.entry.page element.entry.row)) }
        ensures texts_after { take (self.now.kept.sheets.end + result) stores.new.texts.now ≡ take (self.now.kept.sheets.end + fill) stores.old.texts.now ++ inline_contents self.now.settings (element_in element.entry.page element.entry.row) }
        ensures same_kept { SameKeptOf self.now.kept stores.old stores.new }
        ensures kept { KeptStores stores.old stores.new }
    {
        self.begin_element(stores, element, out);
        self.merge_early(element, out, stores, fill);
        self.merge_sheet(AUTHOR_ORIGIN, self.kept.sheets.author, stores, element, out);
        self.merge_late(element, out, stores, fill)
    }

    // The row of an element, from its parent's; the fill behind its contents.
    fn style_element(
        &self,
        element: Element<'_>,
        out: &mut StyleRow,
        stores: &mut Stores<'_>,
        fill: usize,
    ) -> usize
        requires steady { SteadyOf self.now.kept element.page element.row stores.old }
        requires element_room { ElementRoomOf self.now.kept (element_in element.page element.row) fill stores.old }
        ensures out_after { out.new ≡ finished_row self.now.cascade (handed_at out.old) (merged_row self.now.cascade (inherited_row self.now.cascade out.old)
            (declared_by self.now.cascade (sources_from (kept_sheets_of self.now.kept stores.old) (placed_attributes fill (counted_attributes self.now.settings (element_in element.entry.page element.entry.row))) (path_in element.entry.page element.entry.row)))) }
        ensures value { result ≡ fill + length (inline_contents self.now.settings (element_in element.entry.page element.entry.row)) }
        ensures texts_after { take (self.now.kept.sheets.end + result) stores.new.texts.now ≡ take (self.now.kept.sheets.end + fill) stores.old.texts.now ++ inline_contents self.now.settings (element_in element.entry.page element.entry.row) }
        ensures same_kept { SameKeptOf self.now.kept stores.old stores.new }
        ensures kept { KeptStores stores.old stores.new }
    {
        let parent = handed_on(out);
        let end = self.declare_element(element, out, stores, fill);
        finish(out, self.cascade, parent);
        end
    }

    // The row of an element, from the top of its path down to it; the fill behind the contents of the path. What the stores hold behind what is
    // kept, and `texts` behind that fill, is left free.
    pub fn style_path(
        &self,
        element: Element<'_>,
        out: &mut StyleRow,
        stores: &mut Stores<'_>,
    ) -> usize
        requires steady { SteadyOf self.now.kept element.page element.row stores.old }
        requires path_room { PathRoomOf self.now.kept (path_in element.page element.row) stores.old }
        ensures out_after { out.new ≡ row_of (cascaded self.now.cascade (placed_from (kept_sheets_of self.now.kept stores.old) self.now.kept.fill self.now.settings (path_in element.entry.page element.entry.row))) }
        ensures value { result ≡ self.now.kept.fill + length (path_contents self.now.settings (path_in element.entry.page element.entry.row)) }
        ensures texts_after { take (self.now.kept.sheets.end + result) stores.new.texts.now ≡ take (self.now.kept.sheets.end + self.now.kept.fill) stores.old.texts.now ++ path_contents self.now.settings (path_in element.entry.page element.entry.row) }
        ensures same_kept { SameKeptOf self.now.kept stores.old stores.new }
        ensures kept { KeptStores stores.old stores.new }
    {
        let Some(row) = element.parent() else {
            clear_row(out);
            return self.kept.fill;
        };
        let page = element.page;
        let fill = self.style_path(Element { page, row }, out, stores);
        self.style_element(element, out, stores, fill)
    }
}
