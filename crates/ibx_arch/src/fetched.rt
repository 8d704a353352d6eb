/// What is fetched at the program counter: the byte address of a parcel that can't be executed, or an
/// instruction of `length` bytes, 2 or 4, whose halfword is zero-extended.
#[derive(Clone, Copy)]
pub enum Fetched {
    Unsound(u32),
    Instruction { word: u32, length: u32 },
}
