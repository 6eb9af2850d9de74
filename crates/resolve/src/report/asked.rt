// What is asked of an image besides what its description asks.
use std::alloc::Global;

// In which form addresses are answered.
#[derive(Clone, Copy)]
pub enum Form {
    // which function an address lies in
    Function,
    // its frames, as the rows of a description are answered
    Frames,
    // its frames, as other symbolizers write them
    Stack,
}

#[derive(Drop)]
pub struct Asked {
    pub addresses: Vec<u32>,
    pub form: Form,
    pub pairs: Vec<(u32, u32)>,
    // the list of functions is answered too
    pub list: bool,
    // the answers are compared with those of fresh resolvers
    pub check: bool,
    // what a context holds is not printed
    pub only_answers: bool,
}

impl Asked {
    pub fn nothing(heap: Global) -> Asked {
        Asked {
            addresses: Vec::new(heap),
            form: Form::Function,
            pairs: Vec::new(heap),
            list: false,
            check: false,
            only_answers: false,
        }
    }

    // The addresses that are answered by their functions.
    pub fn of_functions(&self) -> &[u32] {
        match self.form {
            Form::Function => self.addresses.as_slice(),
            Form::Frames | Form::Stack => &[],
        }
    }
}
