//! Classes, and the program that they make.
ghost use Rattle.std.specs.Prelude.{◌≡◌, length};

use crate::few::are_few;
use ja_base::{File, Memory, Names};
use ja_class::{Class, ClassFault, read_class};
use ja_ir::Program;
use ja_lib::Table;
use ja_lower::{LowerFault, lower, lower_in_pieces};
use std::alloc::Global;
use std::thread::Threads;

/// Classes, and the name of the file of each.
#[derive(Drop)]
pub struct ClassFolder {
    names: Names,
    classes: Vec<Class>,
    ghost same: { length names ≡ length classes.items },
}

impl ClassFolder {
    /// The folder without classes. It takes no memory.
    pub fn new(alloc: Global) -> ClassFolder {
        ClassFolder {
            names: Names::new(alloc),
            classes: Vec::new(alloc),
        }
    }

    /// The number of classes.
    pub fn len(&self) -> usize {
        self.classes.len()
    }

    /// Whether there is no class.
    pub fn is_empty(&self) -> bool {
        self.classes.is_empty()
    }

    /// The names of the classes' files.
    pub fn names(&self) -> &Names {
        &self.names
    }

    /// The folder with one more class, that of this file. A file that is not read as a class adds none.
    pub fn with_file(self, alloc: Global, file: &File) -> Result<ClassFolder, Memory> {
        match read_class(alloc, file.bytes.as_slice()) {
            Ok(class) => {
                let ClassFolder {
                    mut names,
                    mut classes,
                } = self;
                names.push(file.name.copy(alloc)?)?;
                classes.push(class)?;
                Ok(ClassFolder { names, classes })
            }
            Err(ClassFault::Memory) => Err(Memory),
            Err(_) => Ok(self),
        }
    }

    /// The folder with the classes of these files, too.
    pub fn with_files(self, alloc: Global, files: &[File]) -> Result<ClassFolder, Memory> {
        let mut folder = self;
        for file in files {
            folder = folder.with_file(alloc, file)?;
        }
        Ok(folder)
    }

    /// The folder without the class at a place.
    pub fn without(self, place: usize) -> ClassFolder {
        let ClassFolder { names, mut classes } = self;
        let mut names = names.into_vec();
        if place < names.len() {
            let _name = names.remove(place);
            let _class = classes.remove(place);
        }
        ClassFolder {
            names: Names::from_vec(names),
            classes,
        }
    }

    /// The program of the classes. Where they are too many to be lowered, the answer is want of memory.
    pub fn lower<R: Threads + Sync>(
        &self,
        rt: &R,
        alloc: Global,
        table: &Table,
    ) -> Result<Program, LowerFault> {
        if !are_few(self.classes.as_slice()) {
            return Err(LowerFault::Memory);
        }
        lower(rt, alloc, &self.names, self.classes.as_slice(), table)
    }

    /// The same, where a thread of its own lowers `least` methods or more.
    pub fn lower_in_pieces<R: Threads + Sync>(
        &self,
        rt: &R,
        alloc: Global,
        table: &Table,
        least: usize,
    ) -> Result<Program, LowerFault> {
        if !are_few(self.classes.as_slice()) {
            return Err(LowerFault::Memory);
        }
        lower_in_pieces(
            rt,
            alloc,
            &self.names,
            self.classes.as_slice(),
            table,
            least,
        )
    }
}
