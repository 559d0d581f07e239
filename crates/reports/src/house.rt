// The answer to a sheet that is not refused.

#[derive(Drop)]
pub struct House {
    // the bytes of the listing
    pub listing: Vec<u8>,
    // what was read and what each restriction made of it, in words
    pub report: String,
}
