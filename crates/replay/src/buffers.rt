// The buffers that a call is lent to write in.

/// Of a run `bytes` are its state, else the compiled bytes; of a page's styles `out` are the rows.
#[derive(Drop)]
pub struct Buffers<'a> {
    pub rules: &'a mut [u32],
    pub tokens: &'a mut [u32],
    pub brackets: &'a mut [u8],
    pub texts: &'a mut [u8],
    pub bytes: &'a mut [u8],
    pub out: &'a mut [u32],
}
