// What a description has said so far.
use crate::question::Question;
use crate::said::{Said, Told};
use crate::tables::{ImageTables, ModuleTables};

#[derive(Drop)]
pub struct ImageDraft {
    pub tables: ImageTables,
    pub said: Said,
}

#[derive(Drop)]
pub struct ModuleDraft {
    pub tables: ModuleTables,
    pub told: Told,
}

#[derive(Drop)]
pub struct Draft {
    pub text: Vec<u8>,
    pub image: ImageDraft,
    pub modules: ModuleDraft,
    pub hidden: Vec<u16>,
    pub questions: Vec<Question>,
}
