// A bundle of rays that the tracer is to follow: the field it comes from, the number of its wavelength, and how many
// rays it has.
#[derive(Clone, Copy, PartialEq, Eq, Debug)]
pub struct Bundle {
    pub field: u8,
    pub wavelength: u8,
    pub rays: u16,
}
