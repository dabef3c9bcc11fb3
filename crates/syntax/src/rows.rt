// Rows of components, selectors, rules, declarations and styles: their columns, and the numbers for what stands in them. Rows and compiled bytes are lent
// and may hold any number: so kinds, flags, words, slots, origins and pseudo elements are numbers with names here, and no enums.
ghost use Rattle.std.specs.Prelude.{◌≡◌};
ghost use Rattle.syntax.specs.Layout.{flag};

// Numbers in the row of a declaration: its kind, whether it is important, the byte where it starts, and two more.
pub const DECLARATION_WIDTH: usize = 5;

pub const DECLARATION_KIND: usize = 0;

pub const DECLARATION_IMPORTANT: usize = 1;

pub const DECLARATION_START: usize = 2;

pub const DECLARATION_VALUE: usize = 3;

pub const DECLARATION_SECOND: usize = 4;

// The kinds. No declaration has 0, so that a cleared row is told from a written one.
pub const COLOR: u32 = 1;

pub const BACKGROUND_COLOR: u32 = 2;

pub const HEIGHT: u32 = 3;

pub const MAX_HEIGHT: u32 = 4;

pub const OVERFLOW: u32 = 5;

pub const OVERFLOW_Y: u32 = 6;

pub const DISPLAY: u32 = 7;

pub const WHITE_SPACE: u32 = 8;

pub const CONTENT: u32 = 9;

pub const UNKNOWN: u32 = 10;

pub const VISIBILITY: u32 = 11;

// Flags: whether something is important, whether a height is zero, whether a display is none, whether an element is hidden.
pub const FLAG_FALSE: u32 = 0;

pub const FLAG_TRUE: u32 = 1;

// The number of a flag: `u32::from`, in the word of the definitions, so that no caller has to turn the library's word into it.
#[tactic(auto, unfolding(crate::specs::Layout::flag))]
pub fn flag_of(b: bool) -> u32
    ensures { result ≡ flag b }
{
    u32::from(b)
}

// The words of `overflow` and of `white-space`.
pub const OVERFLOW_VISIBLE: u32 = 0;

pub const OVERFLOW_HIDDEN: u32 = 1;

pub const OVERFLOW_SCROLL: u32 = 2;

pub const OVERFLOW_AUTO: u32 = 3;

pub const WHITE_SPACE_NORMAL: u32 = 0;

pub const WHITE_SPACE_PRE: u32 = 1;

pub const WHITE_SPACE_PRE_WRAP: u32 = 2;

// Numbers in the row of a style: its slot, whether it is important, and those of its value.
pub const STYLE_WIDTH: usize = 5;

pub const STYLE_SLOT: usize = 0;

pub const STYLE_IMPORTANT: usize = 1;

pub const STYLE_NUMBER: usize = 2;

pub const STYLE_SECOND: usize = 3;

pub const STYLE_START: usize = 4;

// The slots, which are those of the compiled sheet.
pub const COLOUR_SLOT: u32 = 0;

pub const BACKGROUND_SLOT: u32 = 1;

pub const DISPLAY_SLOT: u32 = 2;

pub const WHITE_SPACE_SLOT: u32 = 3;

pub const CONTENT_SLOT: u32 = 4;

pub const VISIBILITY_SLOT: u32 = 5;

pub const LAST_SLOT: u32 = VISIBILITY_SLOT;

// Where a sheet is from, by the numbers of the compiled sheet.
pub const AGENT_ORIGIN: u32 = 1;

pub const USER_ORIGIN: u32 = 2;

pub const AUTHOR_ORIGIN: u32 = 3;

// Numbers in the row of a component: its kind, where its texts start, and two more.
pub const COMPONENT_WIDTH: usize = 4;

pub const COMPONENT_KIND: usize = 0;

pub const COMPONENT_TEXT: usize = 1;

pub const COMPONENT_FIRST: usize = 2;

pub const COMPONENT_SECOND: usize = 3;

// The kinds, which are those of the compiled sheet.
pub const STAR: u32 = 0;

pub const CLASS: u32 = 1;

pub const ELEMENT: u32 = 2;

pub const HASH: u32 = 3;

pub const CHILD: u32 = 4;

pub const DESCENDANT: u32 = 5;

pub const NTH: u32 = 6;

pub const ATTRIBUTE: u32 = 7;

pub const ATTRIBUTE_EQUAL: u32 = 8;

// Numbers before the components of a selector: how many they are, and its pseudo element.
pub const SELECTOR_HEAD: usize = 2;

pub const SELECTOR_COMPONENTS: usize = 0;

pub const SELECTOR_PSEUDO: usize = 1;

// The pseudo elements.
pub const PSEUDO_NONE: u32 = 0;

pub const PSEUDO_BEFORE: u32 = 1;

pub const PSEUDO_AFTER: u32 = 2;

// Numbers before the selectors of a rule: its first byte, how many selectors it has, and how many declarations, which stand behind them.
pub const RULE_HEAD: usize = 3;

pub const RULE_SELECTORS: usize = 1;

pub const RULE_DECLARATIONS: usize = 2;
