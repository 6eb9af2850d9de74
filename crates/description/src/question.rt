// What a description asks of its image.
#[derive(Clone, Copy)]
pub enum Question {
    // the function of an address
    Find(u32),
    // the frames of an address
    Frames(u32),
    // the list of functions
    List,
    // whether two addresses are of one function
    Same(u32, u32),
}
