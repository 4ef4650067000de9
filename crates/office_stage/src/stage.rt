use crate::comparing::show_each;
use crate::kept::Kept;
use crate::making::{NO_MORE, open, played, read_words};
use crate::outside::Outside;
use crate::results::{show_place, show_run};
use crate::scene::{Scene, push};
use off_base::NoMemory;
use script_words::{Line, Page, Unread};
use std::alloc::Global;

/// Where the script is played: the scene that its lines have said so far, the rows that sections
/// share, what the last run left, and what is to be printed.
#[derive(Drop)]
pub struct Stage<'a, K> {
    scene: Scene<'a>,
    common: Vec<&'a [u8]>,
    outside: Outside<K>,
    page: Page,
}

impl<'a, K: Kept + Drop> Stage<'a, K> {
    /// An empty one.
    pub fn new(alloc: Global) -> Result<Stage<'a, K>, Unread> {
        Ok(Stage {
            scene: Scene::new(alloc),
            common: Vec::new(alloc),
            outside: Outside::new(alloc)?,
            page: Page::new(alloc),
        })
    }

    /// What is to be printed.
    pub fn printed(&self) -> &[u8] {
        self.page.as_slice()
    }

    /// Begins to print anew.
    pub fn turn_page(&mut self, alloc: Global) {
        self.page = Page::new(alloc);
    }

    /// Takes one line of the script. A line that is empty or begins with `#` says nothing.
    pub fn take(&mut self, alloc: Global, text: &'a [u8]) -> Result<(), Unread> {
        let mut line = Line::over(text);
        match line.word() {
            b"" => Ok(()),
            b"#" => Ok(()),
            b"section" => Ok(self.section(text)?),
            b"common" => push(&mut self.common, line.rest()),
            b"office" => self.office(),
            b"place" => self.place(alloc, line.rest()),
            b"run" => self.run(alloc, text),
            b"again" => self.again(alloc, text),
            _ => self.scene.take(text),
        }
    }

    fn section(&mut self, text: &[u8]) -> Result<(), NoMemory> {
        self.page.text("\n")?;
        self.heading(text)
    }

    fn heading(&mut self, text: &[u8]) -> Result<(), NoMemory> {
        self.page.raw(text)?;
        self.page.end_line()
    }

    // Gives the scene the rows that sections share.
    fn office(&mut self) -> Result<(), Unread> {
        for row in &self.common {
            push(&mut self.scene.rows, row)?;
        }
        Ok(())
    }

    fn place(&mut self, alloc: Global, text: &[u8]) -> Result<(), Unread> {
        let words = read_words(alloc, text)?;
        Ok(show_place(&mut self.page, words.as_slice())?)
    }

    // Runs the scene from its opening rows on; with `fails each` over and over.
    fn run(&mut self, alloc: Global, text: &[u8]) -> Result<(), Unread> {
        self.heading(text)?;
        if let Some(part) = self.scene.each {
            show_each(alloc, &mut self.page, &self.scene, part, &mut self.outside)?;
        } else {
            open(alloc, &self.scene, NO_MORE, &mut self.outside)?;
            self.go(alloc)?;
        }
        self.scene = Scene::new(alloc);
        Ok(())
    }

    // Runs the scene over the tables that the last run left.
    fn again(&mut self, alloc: Global, text: &[u8]) -> Result<(), Unread> {
        self.heading(text)?;
        self.go(alloc)?;
        self.scene = Scene::new(alloc);
        Ok(())
    }

    fn go(&mut self, alloc: Global) -> Result<(), Unread> {
        let status = played(alloc, &self.scene, NO_MORE, &mut self.outside)?;
        show_run(
            alloc,
            &mut self.page,
            &self.scene,
            status,
            &mut self.outside,
        )
    }
}
