// What a call is told beside its texts.
#[derive(Clone, Copy)]
pub struct Settings {
    // Whether `style`, `color` and `bgcolor` attributes count.
    pub document_styles: bool,
}
