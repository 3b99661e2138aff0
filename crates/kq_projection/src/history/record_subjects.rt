//! What a record itself speaks of: numbers of a process, a process that starts or exits, a file.

ghost use Rattle.std.specs.Prelude.{◌≡◌};
ghost use Rattle.kq_projection.specs.RecordSubjects.{first_number, first_opened, second_number, second_opened};
ghost use Rattle.kq_projection.specs.RecordSubjects.{spoken_file, spoken_process};

use kq_model::Event;

/// The only number that a record speaks of, or the first of two, with its process.
#[tactic(auto, unfolding(crate::specs::RecordSubjects::first_number))]
pub fn first_number(event: &Event) -> Option<(u32, u32)>
    ensures { result ≡ first_number event.now }
{
    match event {
        Event::Kqueue { pid, fd } => Some((*pid, *fd)),
        Event::Dup { pid, fd, .. } => Some((*pid, *fd)),
        Event::Close { pid, fd } => Some((*pid, *fd)),
        Event::Socket { pid, fd, .. } => Some((*pid, *fd)),
        Event::Listen { pid, fd, .. } => Some((*pid, *fd)),
        Event::Arrive { pid, fd } => Some((*pid, *fd)),
        Event::Accept { pid, fd, .. } => Some((*pid, *fd)),
        Event::Connect { pid, fd } => Some((*pid, *fd)),
        Event::Rx { pid, fd, .. } => Some((*pid, *fd)),
        Event::Tx { pid, fd, .. } => Some((*pid, *fd)),
        Event::Shut { pid, fd, .. } => Some((*pid, *fd)),
        Event::Lowat { pid, fd, .. } => Some((*pid, *fd)),
        Event::Pipe { pid, rfd, .. } => Some((*pid, *rfd)),
        Event::Read { pid, fd, .. } => Some((*pid, *fd)),
        Event::Write { pid, fd, .. } => Some((*pid, *fd)),
        Event::Open { pid, fd, .. } => Some((*pid, *fd)),
        Event::Seek { pid, fd, .. } => Some((*pid, *fd)),
        _ => None,
    }
}

/// The second number that a record speaks of, with its process.
#[tactic(auto, unfolding(crate::specs::RecordSubjects::second_number))]
pub fn second_number(event: &Event) -> Option<(u32, u32)>
    ensures { result ≡ second_number event.now }
{
    match event {
        Event::Dup { pid, to, .. } => Some((*pid, *to)),
        Event::Accept { pid, to, .. } => Some((*pid, *to)),
        Event::Pipe { pid, wfd, .. } => Some((*pid, *wfd)),
        _ => None,
    }
}

/// The only number that a record opens where it is possible, or the first of two, with its process.
#[tactic(auto, unfolding(crate::specs::RecordSubjects::first_opened))]
pub fn first_opened(event: &Event) -> Option<(u32, u32)>
    ensures { result ≡ first_opened event.now }
{
    match event {
        Event::Kqueue { pid, fd } => Some((*pid, *fd)),
        Event::Dup { pid, to, .. } => Some((*pid, *to)),
        Event::Socket { pid, fd, .. } => Some((*pid, *fd)),
        Event::Accept { pid, to, .. } => Some((*pid, *to)),
        Event::Pipe { pid, rfd, .. } => Some((*pid, *rfd)),
        Event::Open { pid, fd, .. } => Some((*pid, *fd)),
        _ => None,
    }
}

/// The second number that a record opens where it is possible, with its process.
#[tactic(auto, unfolding(crate::specs::RecordSubjects::second_opened))]
pub fn second_opened(event: &Event) -> Option<(u32, u32)>
    ensures { result ≡ second_opened event.now }
{
    match event {
        Event::Pipe { pid, wfd, .. } => Some((*pid, *wfd)),
        _ => None,
    }
}

/// The process that starts or exits.
#[tactic(auto, unfolding(crate::specs::RecordSubjects::spoken_process))]
pub fn spoken_process(event: &Event) -> Option<u32>
    ensures { result ≡ spoken_process event.now }
{
    match event {
        Event::Proc { pid } => Some(*pid),
        Event::Fork { child, .. } => Some(*child),
        Event::Exit { pid, .. } => Some(*pid),
        _ => None,
    }
}

/// The file that a record is about.
#[tactic(auto, unfolding(crate::specs::RecordSubjects::spoken_file))]
pub fn spoken_file(event: &Event) -> Option<u32>
    ensures { result ≡ spoken_file event.now }
{
    match event {
        Event::File { file, .. } => Some(*file),
        Event::Truncate { file, .. } => Some(*file),
        Event::Note { file, .. } => Some(*file),
        _ => None,
    }
}
