//! Act lists of clients, each on a thread of its own.

ghost use Rattle.std.specs.Prelude.{◌≡◌, ◌⊎◌, ◌<◌, ◌^◌, ℕ, All, None, Some, Ok, [], map, length, vec_len, slice_index_or, IfOk, IfErr};
ghost use Rattle.pref_core.specs.declared.fault.CoreFault.TheVariants.{OutOfMemory};
ghost use Rattle.pref_share.specs.Openings.{IsLegalFrom};
ghost use Rattle.pref_share.specs.Standing.{newcomers};
ghost use Rattle.pref_share.specs.Runs.{IsJointRun, StandsWithin};
ghost use Rattle.pref_share.specs.Interleavings.{IsSequential};
ghost use Rattle.pref_share.specs.Reports.{AreReports, RanTasks, RefusesRun, first_fault, reported_in};
ghost use Rattle.pref_share.specs.TaskResults.{AreWorked, DidTask, jobs_of, report_of};

use crate::board::Board;
use crate::book::BoardBrand;
use crate::client::Client;
use crate::fault::ShareFault;
use crate::history::Prefix;
use crate::publisher::Publisher;
use crate::task::{Listed, Task};
use pref_core::{Act, CoreFault, Reply};
use std::alloc::{AllocError, Global};
use std::sync::Wait;
use std::thread;
use std::thread::Threads;

/// A gate is asked before each act of a client, and informed after it.
pub trait Gate {
    ghost use Rattle.std.specs.Prelude.{ℕ, Bool};

    /// The promise of this gate about each answer, by the client's number, its turn and the answer. The author of a gate picks it,
    /// and `before` is proved to keep it: `answer ≡ true` for a gate that holds no client.
    ghost says: { Self → ℕ → ℕ → Bool → Type 0 };

    /// Called before each act of a client, whose turns count from 0. Where it answers false the client stops.
    fn before(&self, client: u8, turn: usize) -> bool
        ensures { says self.now client turn result };

    /// Called once the act has its reply.
    fn after(&self, client: u8, turn: usize);
}

/// The report of a client's run: the client, the replies to the acts that it did, and why it stopped, where it did not do them all.
///
/// The client may go on, by its own calls or in another run.
#[derive(Drop)]
#[derive_where(Debug)]
pub struct Report<J: BoardBrand> {
    /// The client.
    #[derive_where(skip(Debug))]
    pub client: Client<J>,
    /// The reply to each act that it did, in order: the first of its acts.
    pub replies: Vec<Reply>,
    /// Why it did not do the next.
    pub stopped: Option<ShareFault>,
}

/// A client with its task.
#[derive(Drop)]
struct Job<J: BoardBrand, T> {
    client: Client<J>,
    task: T,
}

/// A client's task when it has ended: the client, the task as it is then, and why the client stopped, where it did not do all acts.
#[derive(Drop)]
struct Worked<J: BoardBrand, T> {
    client: Client<J>,
    task: T,
    stopped: Option<ShareFault>,
}

/// Runs each client's acts on a thread of its own, in order, with the gate's `before` and `after` round each, and reports what came
/// of them, client by client. What the clients have seen is of one legal history, and their replies are those of their parts of it.
///
/// Acts that the table refuses have its refusal as their reply, and stop no client. A client stops before an act to which the gate answers
/// false (`Held`), and at one that meets `OutOfMemory`, which only an act that asks for memory does, or `Closed`, which only a scan, a get
/// or a room does. No client stops another.
///
/// An `Err` means that there was no memory for the jobs, the replies or the reports. The clients are dropped then, and what had
/// joined the history stays.
///
/// ```rust
/// for report in run_each(rt, alloc, board, clients, acts, &gate)? {
///     println!(rt; "client {}: {} replies", report.client.number(), report.replies.len())?;
/// }
/// // client 1: 2 replies
/// // client 2: 1 replies
/// ```
#[tactic(auto, using(crate::proofs::ExitLaws::exits))]
pub fn run_each<J: BoardBrand + Send + Sync, R: Threads + Wait + Sync, G: Gate + Sync>(
    rt: &R,
    alloc: Global,
    board: &Board<J>,
    clients: Vec<Client<J>>,
    acts: Vec<Vec<Act>>,
    gate: &G,
) -> Result<Vec<Report<J>>, AllocError>
    requires { vec_len acts ≡ vec_len clients }
    ensures { IfOk result (λ reports. AreReports J.opening (G.says gate.now) clients.items (map (λ list. list.items) acts.items) (map reported_in reports.items)) }
{
    let tasks = listed_tasks(alloc, acts)?;
    let worked = work_tasks(rt, alloc, board, clients, tasks, gate)?;
    let reports = reports_of(alloc, worked)?;
    Ok(reports)
}

/// Runs each client's acts on a thread of its own, as [`run_each`] does, and gives the replies. They are those of
/// one legal history, and so of the sequential table for one interleaving of the acts.
///
/// Where a client stopped, the refusal is that of the one with the lowest number that did. The clients and the replies are dropped
/// then, and what had joined the history stays. Else refused `OutOfMemory`, where there is none for the jobs, the tasks or the replies.
///
/// ```rust
/// let replies = run_all(rt, alloc, board, clients, acts, &gate)?;
/// let of_client_1 = replies[0].len();     // 2
/// ```
#[tactic(auto, using(crate::proofs::ExitLaws::exits))]
pub fn run_all<J: BoardBrand + Send + Sync, R: Threads + Wait + Sync, G: Gate + Sync>(
    rt: &R,
    alloc: Global,
    board: &Board<J>,
    clients: Vec<Client<J>>,
    acts: Vec<Vec<Act>>,
    gate: &G,
) -> Result<Vec<Vec<Reply>>, ShareFault>
    requires clients { clients.items ≡ newcomers J.opening.limits.clients }
    requires lists { vec_len acts ≡ vec_len clients }
    ensures joint { IfOk result (λ replies. IsJointRun J.opening clients.items (map (λ list. list.items) acts.items) (map (λ list. list.items) replies.items)) }
    ensures sequential { IfOk result (λ replies. IsSequential J.opening (map (λ list. list.items) acts.items) (map (λ list. list.items) replies.items)) }
    ensures refused { IfErr result (RefusesRun J.opening (G.says gate.now) clients.items (map (λ list. list.items) acts.items)) }
{
    let tasks = listed_tasks(alloc, acts)?;
    let done = run_tasks(rt, alloc, board, clients, tasks, gate)?;
    let replies = all_replies(alloc, done)?;
    Ok(replies)
}

/// Runs each client's task on a thread of its own, as [`run_each`] runs acts, and gives the tasks as they are then. The replies that
/// they took are those of one legal history, and so of the sequential table for one interleaving of the acts.
///
/// Refused as [`run_all`] is, and `OutOfMemory` also where a task is out of memory.
///
/// ```rust
/// let done = run_tasks(rt, alloc, board, clients, tasks, &gate)?;
/// ```
pub fn run_tasks<
    J: BoardBrand + Send + Sync,
    R: Threads + Wait + Sync,
    G: Gate + Sync,
    T: Task + Send + Drop,
>(
    rt: &R,
    alloc: Global,
    board: &Board<J>,
    clients: Vec<Client<J>>,
    tasks: Vec<T>,
    gate: &G,
) -> Result<Vec<T>, ShareFault>
    requires clients { clients.items ≡ newcomers J.opening.limits.clients }
    requires lists { vec_len tasks ≡ vec_len clients }
    requires fresh { All (λ task. T.took task task []) tasks.items }
    requires few { All (λ task. length (T.left task) < 2 ^ 63) tasks.items }
    ensures ran { IfOk result (λ done. RanTasks J.opening T.took (map T.left tasks.items) tasks.items done.items) }
    ensures refused { IfErr result (RefusesRun J.opening (G.says gate.now) clients.items (map T.left tasks.items)) }
{
    let worked = work_tasks(rt, alloc, board, clients, tasks, gate)?;
    let done = tasks_of(alloc, worked)?;
    Ok(done)
}

/// Lists of acts as tasks.
fn listed_tasks(alloc: Global, acts: Vec<Vec<Act>>) -> Result<Vec<Listed>, AllocError>
    ensures acts { IfOk result (λ tasks. map ⟦<Listed as Task>⟧.left tasks.items ≡ map (λ list. list.items) acts.items) }
    ensures fresh { IfOk result (λ tasks. All (λ task. task.replies.items ≡ []) tasks.items) }
{
    let mut tasks = Vec::new(alloc);
    for list in acts {
        tasks.push(Listed::new(alloc, list)?)?;
    }
    Ok(tasks)
}

/// The replies that these tasks took.
fn all_replies(alloc: Global, tasks: Vec<Listed>) -> Result<Vec<Vec<Reply>>, AllocError>
    ensures { IfOk result (λ all. all.items ≡ map (λ listed. listed.replies) tasks.items) }
{
    tasks
        .into_iter()
        .map(|listed| listed.into_replies())
        .collect(alloc)
}

/// Each client with its task.
fn pair_up<J: BoardBrand, T: Task + Drop>(
    alloc: Global,
    clients: Vec<Client<J>>,
    tasks: Vec<T>,
) -> Result<Vec<Job<J, T>>, AllocError>
    ensures { IfOk result (λ jobs. jobs.items ≡ jobs_of clients.items tasks.items) }
{
    clients
        .into_iter()
        .zip(tasks)
        .map(|(client, task)| Job { client, task })
        .collect(alloc)
}

/// The acts of one client's task, in order, until one stops it.
fn work<J: BoardBrand, R: Wait, G: Gate, T: Task + Drop>(
    rt: &R,
    alloc: Global,
    board: &Board<J>,
    gate: &G,
    job: Job<J, T>,
) -> Result<Worked<J, T>, AllocError>
    requires fresh { T.took job.task job.task [] }
    requires few { length (T.left job.task) < 2 ^ 63 }
    ensures { IfOk result (λ worked. DidTask J.opening (G.says gate.now) (T.took job.task) job.client (T.left job.task) worked) }
{
    let Job {
        mut client,
        mut task,
    } = job;
    let number = client.number();
    let _seen = client.seen();
    let mut turn = 0;
    while let Some(act) = task.next(alloc)? {
        if !gate.before(number, turn) {
            let stopped = Some(ShareFault::Held { client: number });
            return Ok(Worked {
                client,
                task,
                stopped,
            });
        }
        match client.act(rt, alloc, board, act) {
            Ok(reply) => task.take(reply)?,
            Err(fault) => {
                return Ok(Worked {
                    client,
                    task,
                    stopped: Some(fault),
                });
            }
        }
        gate.after(number, turn);
        turn += 1;
    }
    Ok(Worked {
        client,
        task,
        stopped: None,
    })
}

/// The work of each client, on a thread of its own.
fn work_all<
    J: BoardBrand + Send + Sync,
    R: Threads + Wait + Sync,
    G: Gate + Sync,
    T: Task + Send + Drop,
>(
    rt: &R,
    alloc: Global,
    board: &Board<J>,
    jobs: Vec<Job<J, T>>,
    gate: &G,
) -> Result<Vec<Result<Worked<J, T>, AllocError>>, AllocError>
    requires fresh { All (λ job. T.took job.task job.task []) jobs.items }
    requires few { All (λ job. length (T.left job.task) < 2 ^ 63) jobs.items }
    ensures len { IfOk result (λ all. vec_len all ≡ vec_len jobs) }
    ensures each { IfOk result (λ all. (i : ℕ) (job : _) (d : _) → i < vec_len jobs → IfOk (slice_index_or all.items i d) (λ worked. DidTask J.opening (G.says gate.now) (T.took (slice_index_or jobs.items i job).task) (slice_index_or jobs.items i job).client (T.left (slice_index_or jobs.items i job).task) worked)) }
{
    thread::map_vec(
        rt,
        jobs,
        &|job: Job<J, T>| -> Result<Worked<J, T>, AllocError>
            requires { T.took job.task job.task [] × (length (T.left job.task) < 2 ^ 63) }
            ensures { IfOk result (λ worked. DidTask J.opening (G.says gate.entry.now) (T.took job.task) job.client (T.left job.task) worked) }
        { work(rt, alloc, board, gate, job) },
    )
}

/// The ends of all tasks, where each had memory.
fn all_results<J: BoardBrand, T: Task + Drop>(
    alloc: Global,
    all: Vec<Result<Worked<J, T>, AllocError>>,
) -> Result<Vec<Worked<J, T>>, AllocError>
    ensures { IfOk result (λ worked. map Ok worked.items ≡ all.items) }
{
    let mut list = Vec::new(alloc);
    for worked in all {
        list.push(worked?)?;
    }
    Ok(list)
}

/// The end of each client's task, with the history as it is then: it holds just the calls that the clients made.
fn work_tasks<
    J: BoardBrand + Send + Sync,
    R: Threads + Wait + Sync,
    G: Gate + Sync,
    T: Task + Send + Drop,
>(
    rt: &R,
    alloc: Global,
    board: &Board<J>,
    clients: Vec<Client<J>>,
    tasks: Vec<T>,
    gate: &G,
) -> Result<Vec<Worked<J, T>>, AllocError>
    requires lists { vec_len tasks ≡ vec_len clients }
    requires fresh { All (λ task. T.took task task []) tasks.items }
    requires few { All (λ task. length (T.left task) < 2 ^ 63) tasks.items }
    ensures { IfOk result (λ worked. AreWorked J.opening (G.says gate.now) T.left T.took clients.items tasks.items worked.items) }
{
    let jobs = pair_up(alloc, clients, tasks)?;
    let mut worked = all_results(alloc, work_all(rt, alloc, board, jobs, gate)?)?;
    let _whole = check_all(rt, board, &mut worked);
    Ok(worked)
}

/// Shows of each client that the whole history begins with what it has seen, and holds just the calls that it made.
fn check_each<J: BoardBrand, T: Drop>(publisher: &mut Publisher<J>, all: &mut [Worked<J, T>])
    ensures same { (publisher.new ≡ publisher.old) × (all.new ≡ all.old) }
    ensures within { All (λ worked. StandsWithin J.opening publisher.old worked.client) all.old }
{
    for worked in all.iter_mut() {
        worked.client.check(publisher);
    }
}

/// The whole history, which is shown to hold just the calls that the clients made.
fn check_all<J: BoardBrand, R: Wait, T: Drop>(
    rt: &R,
    board: &Board<J>,
    all: &mut [Worked<J, T>],
) -> Prefix<J>
    ensures legal { IsLegalFrom J.opening result }
    ensures same { all.new ≡ all.old }
    ensures within { All (λ worked. StandsWithin J.opening result worked.client) all.old }
{
    let mut guard = board.publisher.lock(rt);
    let publisher = &mut *guard;
    check_each(publisher, all);
    publisher.whole()
}

/// The ends of lists of acts, as reports.
fn reports_of<J: BoardBrand>(
    alloc: Global,
    all: Vec<Worked<J, Listed>>,
) -> Result<Vec<Report<J>>, AllocError>
    ensures { IfOk result (λ reports. reports.items ≡ map report_of all.items) }
{
    all.into_iter()
        .map(|worked| {
            let Worked {
                client,
                task,
                stopped,
            } = worked;
            Report {
                client,
                replies: task.into_replies(),
                stopped,
            }
        })
        .collect(alloc)
}

/// The tasks, where no client stopped; else why the first did that stopped.
fn tasks_of<J: BoardBrand, T: Task + Drop>(
    alloc: Global,
    all: Vec<Worked<J, T>>,
) -> Result<Vec<T>, ShareFault>
    ensures all { IfOk result (λ tasks. tasks.items ≡ map (λ worked. worked.task) all.items) }
    ensures done { IfOk result (λ _. first_fault (map (λ worked. worked.stopped) all.items) ≡ None) }
    ensures first { IfErr result (λ fault. (first_fault (map (λ worked. worked.stopped) all.items) ≡ Some fault) ⊎ (fault ≡ ShareFault.Core OutOfMemory)) }
{
    let mut tasks = Vec::new(alloc);
    for worked in all {
        let Worked {
            client: _client,
            task,
            stopped,
        } = worked;
        if let Some(fault) = stopped {
            return Err(fault);
        }
        if tasks.push(task).is_err() {
            return Err(ShareFault::Core(CoreFault::OutOfMemory));
        }
    }
    Ok(tasks)
}
