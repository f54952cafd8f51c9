//! How many loads of a page are of documents that it remembers, which no run of the program prints.

use bml_bytes::{AreaBytes, NoMemory};
use module_locks::Modules;
use page::Page;
use psi_tables::{Selection, Services};
use std::alloc::Global;
use std::test::Fail;
use test_streams::{DATA_PID, DOCUMENT, Entry, Sent, Unbuilt};

const COMPONENT: u8 = 0x40;

const KEY: u8 = 2;

// Two documents that launch each other by a key, and another one for module 1.
const FIRST: &[u8] = b"<bml><body><p style=\"nav-index:0\" \
    onkeydown=\"browser.launchDocument('/40/0001');\">a</p></body></bml>";

const SECOND: &[u8] = b"<bml><body><p style=\"nav-index:0\" \
    onkeydown=\"browser.launchDocument('/40/0000');\">b</p></body></bml>";

const OTHER: &[u8] = b"<bml><body><p style=\"nav-index:0\" \
    onkeydown=\"browser.launchDocument('/40/0000');\">other</p></body></bml>";

const BOTH: &[Sent] = &[
    Sent::Indication(
        1,
        200,
        &[Entry(0, 1, 100, DOCUMENT), Entry(1, 1, 100, DOCUMENT)],
    ),
    Sent::Block(0, 1, 0, FIRST),
    Sent::Block(1, 1, 0, SECOND),
];

const OTHER_VERSION: &[Sent] = &[
    Sent::Indication(
        2,
        200,
        &[Entry(0, 1, 100, DOCUMENT), Entry(1, 2, 104, DOCUMENT)],
    ),
    Sent::Block(1, 2, 0, OTHER),
];

/// What is done with a page: it takes sections, or the key is pressed so many times.
enum Step {
    Take(&'static [Sent]),
    Press(usize),
}

// Both documents come, and each launches the other one.
const LAUNCHES: &[Step] = &[Step::Take(BOTH), Step::Press(3)];

// The same, and another document comes in module 1 behind the second launch.
const LAUNCHES_OF_ANOTHER: &[Step] = &[
    Step::Take(BOTH),
    Step::Press(2),
    Step::Take(OTHER_VERSION),
    Step::Press(3),
];

/// A page with its modules, the lines that it has given, and how many loads it had counted behind
/// the sections of each step and behind each key.
#[derive(Drop)]
struct Shown {
    alloc: Global,
    page: Page,
    modules: Modules,
    out: Vec<u8>,
    hits: Vec<u64>,
}

impl Shown {
    fn new(alloc: Global) -> Result<Shown, NoMemory> {
        let services = Services::new(alloc, Selection::Pid(DATA_PID));
        let mut modules = Modules::new(alloc);
        modules.set_components(&services)?;
        let page = Page::fresh(alloc, AreaBytes::zeros())?;
        Ok(Shown {
            alloc,
            page,
            modules,
            out: Vec::new(alloc),
            hits: Vec::new(alloc),
        })
    }

    fn obey(&mut self, step: &Step) -> Result<(), Unbuilt> {
        match step {
            Step::Take(all) => self.take_all(all),
            Step::Press(times) => Ok(self.press(*times)?),
        }
    }

    fn take_all(&mut self, all: &[Sent]) -> Result<(), Unbuilt> {
        for sent in all {
            self.take(sent)?;
        }
        self.hits.push(self.page.cache_hits())?;
        Ok(())
    }

    // Takes a section of the data, with its turn.
    fn take(&mut self, sent: &Sent) -> Result<(), Unbuilt> {
        let section = sent.section(self.alloc)?;
        let changes = self.modules.feed(COMPONENT, section.as_slice())?;
        for change in &changes.modules {
            self.page.post_change(COMPONENT, change, &mut self.out)?;
        }
        self.page.turn(&mut self.modules, &mut self.out)?;
        Ok(())
    }

    // Presses the key, each time with its turn, in which the document launches the other one.
    fn press(&mut self, times: usize) -> Result<(), NoMemory> {
        for _ in 0..times {
            self.page.post_key(KEY, true, &mut self.out)?;
            self.page.turn(&mut self.modules, &mut self.out)?;
            self.hits.push(self.page.cache_hits())?;
        }
        Ok(())
    }
}

// What a page has shown behind these steps.
fn shown_behind(alloc: Global, steps: &[Step]) -> Result<Shown, Unbuilt> {
    let mut shown = Shown::new(alloc)?;
    for step in steps {
        shown.obey(step)?;
    }
    Ok(shown)
}

// Whether a page counted so many loads and gave these lines behind these steps.
fn has_shown(alloc: Global, steps: &[Step], hits: &[u64], lines: &[u8]) -> Result<bool, Unbuilt> {
    let shown = shown_behind(alloc, steps)?;
    Ok(shown.hits.as_slice() == hits && shown.out.as_slice() == lines)
}

// The first load of each document isn't a hit, and each later one is: neither module comes anew.
#[test]
fn documents_launched_again_are_remembered(rt: HostRuntime) -> Result<(), Fail> {
    let lines: &[u8] = b"module 40 0000 01 100\nload /40/0000\nmodule 40 0001 01 100\n\
        launch /40/0001\nload /40/0001\nlaunch /40/0000\nload /40/0000\n\
        launch /40/0001\nload /40/0001\n";
    let well = has_shown(rt.alloc(), LAUNCHES, &[0, 0, 1, 2], lines)?;
    assert!(rt; well);
    Ok(())
}

// Another delivery of module 1 has a number of its own, so what is remembered under its path isn't
// the same document: the third launch isn't a hit. The first document stays remembered, as its
// module stays held, and the one that came is remembered from its load on.
#[test]
fn a_document_that_came_anew_is_not_remembered(rt: HostRuntime) -> Result<(), Fail> {
    let lines: &[u8] = b"module 40 0000 01 100\nload /40/0000\nmodule 40 0001 01 100\n\
        launch /40/0001\nload /40/0001\nlaunch /40/0000\nload /40/0000\nmodule 40 0001 02 104\n\
        launch /40/0001\nload /40/0001\nlaunch /40/0000\nload /40/0000\n\
        launch /40/0001\nload /40/0001\n";
    let hits = &[0, 0, 1, 1, 1, 2, 3];
    let well = has_shown(rt.alloc(), LAUNCHES_OF_ANOTHER, hits, lines)?;
    assert!(rt; well);
    Ok(())
}
