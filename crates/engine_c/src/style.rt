// `hicsolmab_style` and `hicsolmab_style_book`: the computed style of one element.
ghost use Rattle.std.specs.Prelude.{◌≡◌};
ghost use Rattle.cascade.specs.declared.slots.Cascade.TheVariants.{Crate, Book};
ghost use Rattle.styling.specs.StyleAnswer.{style_of};
ghost use Rattle.engine.specs.Style.{settings_from, answer_in};

use engine::style::StyleResult;

// The style of an element in the crate's cascade, as `style` gives it: its row to `out`, its contents to `texts`; the others are work stores.
#[unsafe(no_mangle)]
pub extern "C" fn hicsolmab_style(
    agent: &[u8],
    user: &[u8],
    author: &[u8],
    nodes: &[u32],
    attributes: &[u32],
    text: &[u8],
    row: usize,
    document_styles: u32,
    out: &mut [u32],
    texts: &mut [u8],
    rules: &mut [u32],
    tokens: &mut [u32],
    brackets: &mut [u8],
) -> StyleResult
    ensures { record { answer = answer_in result; row = out.new; texts = texts.new; rules = rules.new; tokens = tokens.new; brackets = brackets.new }
        ≡ style_of Crate (settings_from document_styles) (record { agent = agent.now; user = user.now; author = author.now }) (record { nodes = nodes.now; attributes = attributes.now; text = text.now }) row out.old texts.old rules.old tokens.old brackets.old }
{
    engine::style::hicsolmab_style(
        agent,
        user,
        author,
        nodes,
        attributes,
        text,
        row,
        document_styles,
        out,
        texts,
        rules,
        tokens,
        brackets,
    )
}

// The same in the book order.
#[unsafe(no_mangle)]
pub extern "C" fn hicsolmab_style_book(
    agent: &[u8],
    user: &[u8],
    author: &[u8],
    nodes: &[u32],
    attributes: &[u32],
    text: &[u8],
    row: usize,
    document_styles: u32,
    out: &mut [u32],
    texts: &mut [u8],
    rules: &mut [u32],
    tokens: &mut [u32],
    brackets: &mut [u8],
) -> StyleResult
    ensures { record { answer = answer_in result; row = out.new; texts = texts.new; rules = rules.new; tokens = tokens.new; brackets = brackets.new }
        ≡ style_of Book (settings_from document_styles) (record { agent = agent.now; user = user.now; author = author.now }) (record { nodes = nodes.now; attributes = attributes.now; text = text.now }) row out.old texts.old rules.old tokens.old brackets.old }
{
    engine::style::hicsolmab_style_book(
        agent,
        user,
        author,
        nodes,
        attributes,
        text,
        row,
        document_styles,
        out,
        texts,
        rules,
        tokens,
        brackets,
    )
}
