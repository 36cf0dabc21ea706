use crate::task::Task;
use press_page::Target;
use press_server::Setup;

/// A file, and what is asked of it.
#[derive(Debug, Drop)]
pub struct Wanted<'a> {
    /// The file's name, or `-` for the standard input.
    pub file: &'a str,
    pub task: Task,
}

/// A file with others behind it, and what is asked of the site that their commands make together.
#[derive(Debug, Drop)]
pub struct SeveralFiles<'a> {
    /// The first file's name, or `-` for the standard input.
    pub file: &'a str,
    /// The names of those behind it, in their order: none of them is the standard input.
    pub further: Vec<&'a str>,
    pub target: Target,
}

/// A file whose commands go to members.
#[derive(Debug, Drop)]
pub struct Mailing<'a> {
    /// The file's name, or `-` for the standard input.
    pub file: &'a str,
    /// The members' addresses or names, with commas between.
    pub members: &'a str,
}

/// A member whose log becomes site files.
#[derive(Debug, Drop)]
pub struct Exporting<'a> {
    /// The member's address or name.
    pub member: &'a str,
    /// The name of the first file; those behind it have their number as well.
    pub file: &'a str,
}

/// A kit file, and what is to become of it.
#[derive(Debug, Drop)]
pub struct Nexting<'a> {
    /// The file of the kit that there is.
    pub old: &'a str,
    /// The file whose plugins the next kit has.
    pub new: &'a str,
}

/// What is to be done.
#[derive(Debug, Drop)]
pub enum Job<'a> {
    OfFile(Wanted<'a>),
    OfFiles(SeveralFiles<'a>),
    Serve(Setup<'a>),
    Send(Mailing<'a>),
    Export(Exporting<'a>),
    Next(Nexting<'a>),
}

/// What the arguments after the program's name ask for.
#[derive(Debug, Drop)]
pub struct Arguments<'a> {
    /// The names of kit files; without any it is the demonstration kit.
    pub kits: Vec<&'a str>,
    pub job: Job<'a>,
}
