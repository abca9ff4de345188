ghost use Rattle.std.specs.Prelude.{◌≡◌, IfOk, map, string_bytes};
ghost use Rattle.enc_run.specs.Job as spec;

use crate::Text;
use enc_base::NoMemory;
use enc_marks::Scheme;
use enc_pipeline::{How, scheme_name};
use std::alloc::Global;

/// What is to be done with a problem. A table is named as a file is.
#[derive(Debug, Drop)]
pub enum Task {
    /// Write its encoding in the way.
    Encode { how: How },
    /// Tell whether the structure of a typed table is a model of it.
    Check { table: Text },
    /// Carry the model of a typed table to the encoding in the way.
    Lower { table: Text, how: How },
    /// Carry the model of an untyped table back from the encoding in the way.
    Lift { table: Text, how: How },
}

/// What the words ask for: a task on the problem in the file of this name.
#[derive(Debug, Drop)]
pub struct Job {
    pub problem: Text,
    pub task: Task,
}

// the scheme of this name
#[tactic(auto, unfolding(crate::specs::Job::scheme_of))]
fn scheme_of(name: &str) -> Option<Scheme>
    ensures { result ≡ spec.scheme_of name.now }
{
    if name == scheme_name(&Scheme::Guards) {
        Some(Scheme::Guards)
    } else if name == scheme_name(&Scheme::Tags) {
        Some(Scheme::Tags)
    } else if name == scheme_name(&Scheme::GuardsCover) {
        Some(Scheme::GuardsCover)
    } else if name == scheme_name(&Scheme::TagsCover) {
        Some(Scheme::TagsCover)
    } else if name == scheme_name(&Scheme::Args) {
        Some(Scheme::Args)
    } else if name == scheme_name(&Scheme::Erase) {
        Some(Scheme::Erase)
    } else if name == scheme_name(&Scheme::GuardsLight) {
        Some(Scheme::GuardsLight)
    } else if name == scheme_name(&Scheme::TagsLight) {
        Some(Scheme::TagsLight)
    } else if name == scheme_name(&Scheme::GuardsFeather) {
        Some(Scheme::GuardsFeather)
    } else if name == scheme_name(&Scheme::TagsFeather) {
        Some(Scheme::TagsFeather)
    } else {
        None
    }
}

// the encoding by a scheme
fn encoding_of(action: &str, scheme: Option<Scheme>) -> Option<Task>
    ensures { result ≡ spec.encoding_of action.now scheme }
{
    let how = How::plain(scheme?);
    if action == "encode" {
        Some(Task::Encode { how })
    } else {
        None
    }
}

// the carrying of a table's model by a scheme
fn carrying_of(
    alloc: Global,
    action: &str,
    table: &str,
    scheme: Option<Scheme>,
) -> Result<Option<Task>, NoMemory>
    ensures { IfOk result (λ task. task ≡ spec.carrying_of action.now table.now scheme) }
{
    let Some(scheme) = scheme else {
        return Ok(None);
    };
    if action == "lower" {
        let table = Text::from_str(alloc, table)?;
        let how = How::plain(scheme);
        Ok(Some(Task::Lower { table, how }))
    } else if action == "lift" {
        let table = Text::from_str(alloc, table)?;
        let how = How::plain(scheme);
        Ok(Some(Task::Lift { table, how }))
    } else {
        Ok(None)
    }
}

// the task with a table where no scheme is named
fn table_task_of(alloc: Global, action: &str, table: &str) -> Result<Option<Task>, NoMemory>
    ensures { IfOk result (λ task. task ≡ spec.table_task_of action.now table.now) }
{
    if action == "check" {
        let table = Text::from_str(alloc, table)?;
        Ok(Some(Task::Check { table }))
    } else {
        carrying_of(alloc, action, table, Some(Scheme::Guards))
    }
}

// the task on this problem
fn with_problem(alloc: Global, problem: &str, task: Option<Task>) -> Result<Option<Job>, NoMemory>
    ensures { IfOk result (λ job. job ≡ spec.with_problem problem.now task) }
{
    let Some(task) = task else {
        return Ok(None);
    };
    let problem = Text::from_str(alloc, problem)?;
    Ok(Some(Job { problem, task }))
}

// the task on this problem and table, which can't both be the standard input
fn with_both(
    alloc: Global,
    problem: &str,
    table: &str,
    task: Option<Task>,
) -> Result<Option<Job>, NoMemory>
    ensures { IfOk result (λ job. job ≡ spec.with_both problem.now table.now task) }
{
    if problem == "-" && table == "-" {
        return Ok(None);
    }
    with_problem(alloc, problem, task)
}

/// The job that the words give, where they give one.
pub fn read_words(alloc: Global, words: &[String]) -> Result<Option<Job>, NoMemory>
    ensures { IfOk result (λ job. job ≡ spec.job_of (map string_bytes words.now)) }
{
    match words {
        [action, problem] => {
            let task = encoding_of(action.as_str(), Some(Scheme::Guards));
            with_problem(alloc, problem.as_str(), task)
        }
        [action, problem, table] => {
            let task = table_task_of(alloc, action.as_str(), table.as_str())?;
            with_both(alloc, problem.as_str(), table.as_str(), task)
        }
        [action, problem, option, name] if option.as_str() == "--scheme" => {
            let task = encoding_of(action.as_str(), scheme_of(name.as_str()));
            with_problem(alloc, problem.as_str(), task)
        }
        [action, problem, table, option, name] if option.as_str() == "--scheme" => {
            let scheme = scheme_of(name.as_str());
            let task = carrying_of(alloc, action.as_str(), table.as_str(), scheme)?;
            with_both(alloc, problem.as_str(), table.as_str(), task)
        }
        _ => Ok(None),
    }
}
