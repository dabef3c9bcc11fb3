// A row of a page as a pass over the selectors is handed it.
ghost use Rattle.std.specs.Prelude.{◌≤◌};
ghost use Rattle.page.specs.PathOf.{attributes_from};
ghost use Rattle.sweeps.specs.Place.{place_limit};

use matching::elements::Attributes;

// An element: its name, its attribute rows with the text that they are cut from, and its place among its siblings.
#[derive(Clone, Copy)]
pub struct Handed<'a> {
    pub name: &'a [u8],
    pub attributes: &'a [u32],
    pub text: &'a [u8],
    pub place: usize,
    pub ghost near: { place ≤ place_limit },
}

impl<'a> Handed<'a> {
    ghost use Rattle.std.specs.Prelude.{◌≡◌};
    ghost use Rattle.sweeps.specs.Met.{handed};

    // All of its attributes. (One line, as in `NodeRow` of stepping. No field of either is an `Attributes`: that tells a count too, which need not be that of its
    // rows.)
    #[tactic(auto, unfolding(crate::specs::Met::handed, crate::specs::Met::handed_element))]
    pub fn attributes(&self) -> Attributes<'a>
        ensures { attributes_from result.rows.now result.text.now result.count 0 ≡ (handed self.now).attributes }
    {
        Attributes::of_rows(self.attributes, self.text)
    }
}

// A row: the compiled bytes, the part of the state of its parent, and its element, or none for the document. Of the bytes nothing is asked here, as they are
// only read: a visit, which keeps places of them in two bytes of the state, asks that they are few.
#[derive(Clone, Copy)]
pub struct Row<'a> {
    pub compiled: &'a [u8],
    pub above: &'a [u8],
    pub element: Option<&'a Handed<'a>>,
}
