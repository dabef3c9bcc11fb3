// What a run reads.
use page::lent::Page;
use styles::settings::Settings;

// Whether document styles are on, a compiled sheet, and the page that it goes down.
#[derive(Clone, Copy)]
pub struct RunInput<'a> {
    pub settings: Settings,
    pub compiled: &'a [u8],
    pub page: Page<'a>,
}
