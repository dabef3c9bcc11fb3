// `style` and `style_book`: the computed style of one element. Refusals are looked for in the order of document 01; nothing is written before all of them but
// 4 are ruled out.
ghost use Rattle.std.specs.Prelude.{◌≡◌, ◌++◌, ◌+◌, ◌*◌, ◌/◌, ◌≤◌, ◌<◌, leb, length, drop, replicate};
ghost use Rattle.combinators.specs.Choice.{and};
ghost use Rattle.combinators.specs.LeastLengths.{stores_suffice};
ghost use Rattle.combinators.specs.Part.{part};
ghost use Rattle.combinators.specs.Store.{cleared};
ghost use Rattle.sheets.specs.SheetAnswer.{padded};
ghost use Rattle.origins.specs.Checks.{Lent};
ghost use Rattle.origins.specs.Reading.{sheets_of};
ghost use Rattle.cascade.specs.declared.slots.Cascade.TheVariants.{Crate, Book};
ghost use Rattle.cascade.specs.Row.{style_row_width};
ghost use Rattle.page.specs.Rows.{number_bound};
ghost use Rattle.combinators.specs.Lent.{SameStores};
ghost use Rattle.page.specs.Lent.{page_in, path_in};
ghost use Rattle.styles.specs.Lent.{sheets_in};
ghost use Rattle.styles.specs.StyleCall.{call_row, call_store};
ghost use Rattle.rule_styles.specs.Held.{sheets_from, SheetsHeld};
ghost use Rattle.styling.specs.StyleAnswer.{call_bytes, is_element, numbers_of, left_in, styled_left, styled_left_of, style_of_lent, style_refusal};
ghost use Rattle.styling.specs.Fronts.{FrontLent};
ghost use Rattle.styling.specs.Styling.{FewBytes, ContentsIn, LentOf, ReadRoomOf, CallLent, CallLentOf, AskedLentOf};

use crate::front::{clear_behind, path_room};
use cascade::rows::STYLE_ROW_WIDTH;
use cascade::slots::Cascade;
use combinators::least::{NUMBER_MORE, NUMBER_WIDTH, TEXT_MORE, TEXT_WIDTH};
use combinators::lent::{SheetTexts, Stores};
use combinators::refusals::{
    NO_ELEMENT, NOT_UTF8, PANIC, Refusal, SHORT_STORE, TOO_LONG, refused, refused_in,
};
use declarations::texts::move_down;
use matching::elements::Element;
use origins::checks::{all_valid, any_too_long};
use origins::reading::{SheetPanic, SheetsRules, read_sheets};
use page::check::{PageError, check_page};
use page::lent::Page;
use page::rows::{ELEMENT, kind_of, node_count};
use path_styles::path::Styling;
use path_styles::tops::find_tops;
use rule_styles::styled::style_sheets;
use styles::settings::Settings;

// Why an element is not styled: for its sheets, the stores, the page or the row that is asked; of a panic the sheet and the byte where the crate panics.
// It is the `Err` of a `Result`, so it has refusals only.
#[derive(Clone, Copy, Debug, PartialEq, Eq)]
pub enum StyleError {
    TooLong,
    ShortStore,
    NotUtf8,
    BadPage(PageError),
    NoElement,
    Panic(SheetPanic),
}

impl From<PageError> for StyleError {
    ghost use Rattle.styling.specs.declared.style.StyleError.{StyleError};

    ghost from_gives = { λ page error. error ≡ StyleError.BadPage page };

    fn from(page: PageError) -> StyleError {
        StyleError::BadPage(page)
    }
}

impl From<SheetPanic> for StyleError {
    ghost use Rattle.styling.specs.declared.style.StyleError.{StyleError};

    ghost from_gives = { λ panic error. error ≡ StyleError.Panic panic };

    fn from(panic: SheetPanic) -> StyleError {
        StyleError::Panic(panic)
    }
}

impl From<StyleError> for Refusal {
    ghost from_gives = { λ error refusal. refusal ≡ style_refusal error };

    #[tactic(auto, unfolding(crate::specs::StyleAnswer::style_refusal))]
    fn from(error: StyleError) -> Refusal {
        match error {
            StyleError::TooLong => refused(TOO_LONG),
            StyleError::ShortStore => refused(SHORT_STORE),
            StyleError::NotUtf8 => refused(NOT_UTF8),
            StyleError::BadPage(page) => Refusal::from(page),
            StyleError::NoElement => refused(NO_ELEMENT),
            StyleError::Panic(panic) => refused_in(PANIC, panic.text, panic.place),
        }
    }
}

// Whether a row is an element of the page.
pub fn is_element(nodes: &[u32], row: usize) -> bool
    ensures { result ≡ is_element nodes.now row }
{
    row < node_count(nodes) && kind_of(nodes, row) == ELEMENT
}

// Whether what is lent suffices for sheets and a page.
fn lent_suffices(sheets: SheetTexts<'_>, page: Page<'_>, out: &[u32], stores: &Stores<'_>) -> bool
    requires { FewBytes (length sheets.agent.now + length sheets.user.now + length sheets.author.now) }
    ensures { result
        ≡ and (leb style_row_width (length out.now))
        (stores_suffice (call_bytes (sheets_in sheets.entry) (page_in page.entry)) (length stores.now.rules.now) (length stores.now.tokens.now) (length stores.now.brackets.now) (length stores.now.texts.now)) }
{
    out.len() >= STYLE_ROW_WIDTH && page.fits(sheets.bytes(), stores)
}

// Moves the contents down over the texts of the rules; zeros behind them.
fn keep_contents(texts: &mut [u8], end: usize, fill: usize)
    requires { ContentsIn texts.old end fill }
    ensures { texts.new ≡ padded (part texts.old end fill) (length texts.old) }
{
    move_down(texts, end, 0, fill);
    texts[fill..].fill(0);
}

// Zeros throughout all buffers. Here and below each store has its clause, since what it is cleared to differs: zeros behind a front, or throughout.
fn clear_all(out: &mut [u32], stores: &mut Stores<'_>)
    ensures same { SameStores stores.old stores.new }
    ensures out_after { out.new ≡ cleared 0 out.old }
    ensures texts_after { stores.new.texts.now ≡ cleared 0 stores.old.texts.now }
    ensures rules_after { stores.new.rules.now ≡ cleared 0 stores.old.rules.now }
    ensures tokens_after { stores.new.tokens.now ≡ cleared 0 stores.old.tokens.now }
    ensures brackets_after { stores.new.brackets.now ≡ cleared 0 stores.old.brackets.now }
{
    out.fill(0);
    stores.clear();
}

// By what elements are styled: a cascade, the settings, and the texts of three sheets.
#[derive(Clone, Copy)]
struct StyleCall<'a> {
    cascade: Cascade,
    settings: Settings,
    sheets: SheetTexts<'a>,
}

// The element that a call is for. As a row of an accepted page it has a number of 32 bits.
#[derive(Clone, Copy)]
struct ElementCall<'s, 'p> {
    call: StyleCall<'s>,
    element: Element<'p>,
    ghost row_lt_number_bound: { element.row < number_bound },
}

impl ElementCall<'_, '_> {
    // Styles an element by sheets that were read; the bytes of its texts. Row and stores stay apart, here and below, since `style_parts` is lent the whole row
    // beside parts of the stores.
    fn style_read(&self, sheets: SheetsRules, out: &mut [u32], stores: &mut Stores<'_>) -> usize
        requires read_room { ReadRoomOf sheets (path_in self.now.element.page self.now.element.row) out.old stores.old }
        ensures same { SameStores stores.old stores.new }
        ensures out_after { out.new ≡ call_row self.now.call.cascade (sheets_from stores.old.rules.now stores.old.texts.now sheets) self.now.call.settings (path_in self.now.element.page self.now.element.row) ++ drop style_row_width out.old }
        ensures value { result ≡ length (call_store (sheets_from stores.old.rules.now stores.old.texts.now sheets) self.now.call.settings (path_in self.now.element.page self.now.element.row)) }
        ensures texts_after { stores.new.texts.now ≡ padded (call_store (sheets_from stores.old.rules.now stores.old.texts.now sheets) self.now.call.settings (path_in self.now.element.page self.now.element.row)) (length stores.old.texts.now) }
        ensures rules_after { stores.new.rules.now ≡ replicate (length stores.old.rules.now) 0 }
        ensures tokens_after { stores.new.tokens.now ≡ replicate (length stores.old.tokens.now) 0 }
        ensures brackets_after { stores.new.brackets.now ≡ replicate (length stores.old.brackets.now) 0 }
    {
        let rules = &mut *stores.rules;
        let tokens = &mut *stores.tokens;
        let texts = &mut *stores.texts;
        let styled = style_sheets(rules, sheets, tokens, texts);
        let ready = find_tops(styled, rules, texts, self.element, tokens);
        let row = out.first_chunk_mut().unwrap();
        let styling = Styling {
            cascade: self.call.cascade,
            settings: self.call.settings,
            kept: ready,
        };
        let fill = styling.style_path(self.element, row, stores);
        keep_contents(stores.texts, ready.sheets.end, fill);
        stores.clear_work();
        fill
    }

    // Styles an element by sheets for which the stores suffice, whatever the buffers hold. `lent` and `call_lent`, here and below, join the sheets and the element with the
    // row and the stores, which are cut and written in between: a field of all of them would be shown anew at each cut.
    fn style_texts(&self, out: &mut [u32], stores: &mut Stores<'_>) -> Result<usize, StyleError>
        requires lent { LentOf self.now.call.sheets stores.old }
        requires call_lent { CallLentOf self.now.call.sheets (path_in self.now.element.page self.now.element.row) out.old stores.old }
        ensures same { SameStores stores.old stores.new }
        ensures left { left_in (numbers_of result) out.new stores.new
            ≡ styled_left_of self.now.call.sheets self.now.call.cascade self.now.call.settings (path_in self.now.element.page self.now.element.row) out.old stores.old }
    {
        clear_all(out, stores);
        let read = read_sheets(self.call.sheets, stores)?;
        Ok(self.style_read(read, out, stores))
    }

    // The same in parts of stores, which come one by one: of parts of a struct's fields the borrow checker makes no struct.
    fn style_parts(
        &self,
        out: &mut [u32],
        rules: &mut [u32],
        tokens: &mut [u32],
        brackets: &mut [u8],
        texts: &mut [u8],
    ) -> Result<usize, StyleError>
        requires lent { Lent self.now.call.sheets.agent.now self.now.call.sheets.user.now self.now.call.sheets.author.now rules.old tokens.old brackets.old texts.old }
        requires call_lent { CallLent (length self.now.call.sheets.agent.now + length self.now.call.sheets.user.now + length self.now.call.sheets.author.now) (path_in self.now.element.page self.now.element.row) out.old rules.old tokens.old brackets.old texts.old }
        ensures { record { answer = numbers_of result; row = out.new; texts = texts.new; rules = rules.new; tokens = tokens.new; brackets = brackets.new }
            ≡ styled_left out.old texts.old rules.old tokens.old brackets.old self.now.call.cascade self.now.call.settings (path_in self.now.element.page self.now.element.row) (sheets_of self.now.call.sheets.agent.now self.now.call.sheets.user.now self.now.call.sheets.author.now) }
    {
        let mut stores = Stores {
            rules,
            tokens,
            brackets,
            texts,
        };
        self.style_texts(out, &mut stores)
    }

    // Styles an element in the fronts of stores that suffice for so many bytes; zeros behind the fronts.
    fn style_front(
        &self,
        out: &mut [u32],
        stores: &mut Stores<'_>,
        room: usize,
    ) -> Result<usize, StyleError>
        requires front_lent { FrontLent self.now.call.sheets.agent.now self.now.call.sheets.user.now self.now.call.sheets.author.now (path_in self.now.element.page self.now.element.row) room out.old stores.old.rules.now stores.old.tokens.now stores.old.brackets.now stores.old.texts.now }
        ensures same { SameStores stores.old stores.new }
        ensures left { left_in (numbers_of result) out.new stores.new
            ≡ styled_left_of self.now.call.sheets self.now.call.cascade self.now.call.settings (path_in self.now.element.page self.now.element.row) out.old stores.old }
    {
        let bytes = TEXT_WIDTH * room + TEXT_MORE;
        let numbers = NUMBER_WIDTH * room + NUMBER_MORE;
        clear_behind(stores, bytes, numbers, room);
        self.style_parts(
            out,
            &mut stores.rules[..numbers],
            &mut stores.tokens[..numbers],
            &mut stores.brackets[..room],
            &mut stores.texts[..bytes],
        )
    }

    // Styles an element in as much of the stores as it asks for, or in the whole of them, which always suffices: so nothing is to be known of what it asks for
    // but that it is enough.
    fn style_in_front(&self, out: &mut [u32], stores: &mut Stores<'_>) -> Result<usize, StyleError>
        requires lent { LentOf self.now.call.sheets stores.old }
        requires call_lent { CallLentOf self.now.call.sheets (path_in self.now.element.page self.now.element.row) out.old stores.old }
        ensures same { SameStores stores.old stores.new }
        ensures left { left_in (numbers_of result) out.new stores.new
            ≡ styled_left_of self.now.call.sheets self.now.call.cascade self.now.call.settings (path_in self.now.element.page self.now.element.row) out.old stores.old }
    {
        let page = self.element.page;
        let row = self.element.row;
        let room = self.call.sheets.bytes() + path_room(page.nodes, page.attributes, row);
        if stores.suffice(room) {
            self.style_front(out, stores, room)
        } else {
            self.style_texts(out, stores)
        }
    }
}

impl StyleCall<'_> {
    // Styles an element of a page that is accepted or not, by sheets that are UTF-8 or not and for which the stores suffice. Page and row stay apart here and in those that call
    // this: only here the row turns out to be an `Element`.
    fn style_asked(
        &self,
        page: Page<'_>,
        row: usize,
        out: &mut [u32],
        stores: &mut Stores<'_>,
    ) -> Result<usize, StyleError>
        requires { AskedLentOf (sheets_in self.now.sheets) (page_in page) out.old stores.old }
        ensures same { SameStores stores.old stores.new }
        ensures left { left_in (numbers_of result) out.new stores.new
            ≡ style_of_lent self.now.cascade self.now.settings (sheets_in self.now.sheets) (page_in page.entry) row out.old stores.old }
    {
        if !all_valid(self.sheets) {
            return Err(StyleError::NotUtf8);
        }
        check_page(page)?;
        if !is_element(page.nodes, row) {
            return Err(StyleError::NoElement);
        }
        let element = Element { page, row };
        let asked = ElementCall {
            call: *self,
            element,
        };
        asked.style_in_front(out, stores)
    }

    // The style of an element in either cascade. The tests are those of `compile` but for what is lent, and their errors another type.
    fn style_by(
        &self,
        page: Page<'_>,
        row: usize,
        out: &mut [u32],
        stores: &mut Stores<'_>,
    ) -> Result<usize, StyleError>
        ensures same { SameStores stores.old stores.new }
        ensures left { left_in (numbers_of result) out.new stores.new
            ≡ style_of_lent self.now.cascade self.now.settings (sheets_in self.now.sheets) (page_in page.entry) row out.old stores.old }
    {
        let sheets = self.sheets;
        if any_too_long(sheets.agent.len(), sheets.user.len(), sheets.author.len()) {
            return Err(StyleError::TooLong);
        }
        if !lent_suffices(sheets, page, out, stores) {
            return Err(StyleError::ShortStore);
        }
        self.style_asked(page, row, out, stores)
    }
}

// The style of an element in the crate's cascade: its row to `out`, its contents to `texts`; the others are work stores.
pub fn style(
    settings: Settings,
    sheets: SheetTexts<'_>,
    page: Page<'_>,
    row: usize,
    out: &mut [u32],
    stores: &mut Stores<'_>,
) -> Result<usize, StyleError>
    ensures same { SameStores stores.old stores.new }
    ensures left { left_in (numbers_of result) out.new stores.new
        ≡ style_of_lent Crate settings (sheets_in sheets.entry) (page_in page.entry) row out.old stores.old }
{
    let call = StyleCall {
        cascade: Cascade::Crate,
        settings,
        sheets,
    };
    call.style_by(page, row, out, stores)
}

// The same in the book order. Both are entry points of document 01, so neither is told its cascade.
pub fn style_book(
    settings: Settings,
    sheets: SheetTexts<'_>,
    page: Page<'_>,
    row: usize,
    out: &mut [u32],
    stores: &mut Stores<'_>,
) -> Result<usize, StyleError>
    ensures same { SameStores stores.old stores.new }
    ensures left { left_in (numbers_of result) out.new stores.new
        ≡ style_of_lent Book settings (sheets_in sheets.entry) (page_in page.entry) row out.old stores.old }
{
    let call = StyleCall {
        cascade: Cascade::Book,
        settings,
        sheets,
    };
    call.style_by(page, row, out, stores)
}
