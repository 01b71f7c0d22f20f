//! What the program holds between two lines of a script, and what a line does with it.
use crate::faults::Fault;
use crate::files::load;
use crate::marks::Marks;
use crate::store::{Store, flat, paged, tell_made};
use answers::memories::MemoryAnswer;
use gate::entries::EntryRow;
use gate::passes::{Pass, gate};
use gate::readers::Reader;
use listing::lines::Line;
use memory::flat::Flat;
use memory::paged::Paged;
use script::answers::Answer;
use script::commands::{Command, parse};
use script::problems::Problem;
use std::alloc::Global;
use std::io;

/// A module: bytes that have not passed, or a pass that holds them.
#[derive(Drop)]
enum Module {
    Bytes(Vec<u8>),
    Passed(Pass),
}

impl Module {
    /// Lets a pass go.
    fn into_bytes(self) -> Vec<u8> {
        match self {
            Module::Bytes(bytes) => bytes,
            Module::Passed(pass) => pass.into_image(),
        }
    }

    fn bytes(&self) -> &[u8] {
        match self {
            Module::Bytes(bytes) => bytes.as_slice(),
            Module::Passed(pass) => pass.image(),
        }
    }
}

/// The marks that the last verdict left: how many bytes of each buffer it was about, and buffers that are not those that
/// are kept for the whole script.
#[derive(Drop)]
struct Judged {
    count: usize,
    fresh: Option<Marks>,
}

#[derive(Drop)]
pub(crate) struct Session {
    module: Option<Module>,
    row: EntryRow,
    kept: Marks,
    judged: Option<Judged>,
    store: Option<Store>,
    well: bool,
}

fn list(rt: &HostRuntime, module: &[u8]) -> io::Result<()> {
    let reader = match Reader::new(module) {
        Ok(reader) => reader,
        Err(refusal) => return println!(rt; "{refusal}"),
    };
    for element in reader.take(module.len()) {
        match element {
            Ok(element) => println!(rt; "{}", Line(element))?,
            Err(refusal) => return println!(rt; "{refusal}"),
        }
    }
    let length = module.len();
    println!(rt; "{}", Answer::Ended { length })
}

// Judges with these buffers; the module is a pass after it, or bytes again.
fn judge(rt: &HostRuntime, image: Vec<u8>, row: EntryRow, marks: &mut Marks) -> io::Result<Module> {
    let Marks { starts, targets } = marks;
    match gate(image, row, starts.as_mut_slice(), targets.as_mut_slice()) {
        Ok(pass) => {
            println!(rt; "{}", Answer::Passed)?;
            Ok(Module::Passed(pass))
        }
        Err(refused) => {
            println!(rt; "{}", refused.refusal)?;
            Ok(Module::Bytes(refused.image))
        }
    }
}

impl Session {
    pub(crate) fn new(heap: Global) -> Result<Session, Problem> {
        Ok(Session {
            module: None,
            row: EntryRow { base: 64, count: 0 },
            kept: Marks::new(heap, 8192, 8192, 0)?,
            judged: None,
            store: None,
            well: true,
        })
    }

    /// Whether each line so far could be carried out.
    pub(crate) fn went_well(&self) -> bool {
        self.well
    }

    fn take(&mut self, rt: &HostRuntime, module: Vec<u8>) -> Result<(), Fault> {
        let length = module.len();
        self.module = Some(Module::Bytes(module));
        println!(rt; "{}", Answer::Taken { length })?;
        Ok(())
    }

    // A pass was given with the row before, so it is let go.
    fn set_row(&mut self, rt: &HostRuntime, base: u32, count: u32) -> Result<(), Fault> {
        self.row = EntryRow { base, count };
        let module = self.module.take();
        self.module = module.map(|module| Module::Bytes(module.into_bytes()));
        println!(rt; "{}", Answer::Rowed { base, count })?;
        Ok(())
    }

    fn image(&mut self) -> Result<Vec<u8>, Problem> {
        let module = self.module.take().ok_or(Problem::NoModule)?;
        Ok(module.into_bytes())
    }

    fn judge_kept(&mut self, rt: &HostRuntime) -> Result<(), Fault> {
        let image = self.image()?;
        let count = image.len() / 8;
        self.judged = Some(Judged { count, fresh: None });
        self.module = Some(judge(rt, image, self.row, &mut self.kept)?);
        Ok(())
    }

    fn judge_fresh(&mut self, rt: &HostRuntime, starts: u32, targets: u32) -> Result<(), Fault> {
        let mut marks = Marks::new(rt.alloc(), starts as usize, targets as usize, 0xff)?;
        let image = self.image()?;
        let count = image.len() / 8;
        self.module = Some(judge(rt, image, self.row, &mut marks)?);
        let fresh = Some(marks);
        self.judged = Some(Judged { count, fresh });
        Ok(())
    }

    fn show_marks(&self, rt: &HostRuntime) -> Result<(), Fault> {
        let judged = self.judged.as_ref().ok_or(Problem::NoVerdict)?;
        let marks = judged.fresh.as_ref().unwrap_or(&self.kept);
        marks.show(rt, judged.count)?;
        Ok(())
    }

    fn show_list(&self, rt: &HostRuntime) -> Result<(), Fault> {
        let module = self.module.as_ref().ok_or(Problem::NoModule)?;
        list(rt, module.bytes())?;
        Ok(())
    }

    fn make_flat(&mut self, rt: &HostRuntime, size: u32) -> Result<(), Fault> {
        let memory = flat(rt.alloc(), size)?;
        let answer = MemoryAnswer::MadeFlat { size };
        tell_made(rt, Flat::check(size as usize), answer, &memory)?;
        self.store = Some(Store::Flat(memory));
        Ok(())
    }

    fn make_paged(&mut self, rt: &HostRuntime, size: u32, frames: u32) -> Result<(), Fault> {
        let memory = paged(rt.alloc(), size, frames)?;
        let answer = MemoryAnswer::MadePaged { size, frames };
        tell_made(rt, Paged::check(size, frames as usize), answer, &memory)?;
        self.store = Some(Store::Paged(memory));
        Ok(())
    }

    fn show_bytes(&self, rt: &HostRuntime, address: u32, count: u32) -> Result<(), Fault> {
        let store = self.store.as_ref().ok_or(Problem::NoMemory)?;
        store.show(rt, address, count)
    }

    fn answer(&mut self, rt: &HostRuntime, text: &[u8]) -> Result<(), Fault> {
        let Some(command) = parse(rt.alloc(), text)? else {
            return Ok(());
        };
        match command {
            Command::Module(bytes) => self.take(rt, bytes),
            Command::ModuleFile(path) => self.take(rt, load(rt, path)?),
            Command::List => self.show_list(rt),
            Command::Row(base, count) => self.set_row(rt, base, count),
            Command::Gate => self.judge_kept(rt),
            Command::GateFresh(starts, targets) => self.judge_fresh(rt, starts, targets),
            Command::Marks => self.show_marks(rt),
            Command::FlatMemory(size) => self.make_flat(rt, size),
            Command::PagedMemory(size, frames) => self.make_paged(rt, size, frames),
            Command::Bytes(address, count) => self.show_bytes(rt, address, count),
        }
    }

    /// Carries out a line, counted from 1, and prints the answer.
    pub(crate) fn carry_out(&mut self, rt: &HostRuntime, line: u64, text: &[u8]) -> io::Result<()> {
        match self.answer(rt, text) {
            Ok(()) => Ok(()),
            Err(Fault::Line(problem)) => {
                self.well = false;
                println!(rt; "{}", Answer::Failed { line, problem })
            }
            Err(Fault::Output(error)) => Err(error),
        }
    }
}
