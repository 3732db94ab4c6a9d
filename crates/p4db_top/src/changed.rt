//! A log in a file that another changes during a run.

ghost use Rattle.std.specs.Prelude.{◌≡◌, All, false};
ghost use Rattle.catalogue.specs.PlanOf.{plan_of};
ghost use Rattle.catalogue.specs.Sound.{IsActor, IsSound};

use catalogue::{Actor, Session};
use fabric_core::{RunName, Turn, World};
use port_io::{FileRack, LogRack};
use session_reader::read_session;
use std::alloc::Global;
use std::marker::Brand;
use std::test::Fail;
use std::{fs, io};

const FOLDER: &str = "changed-log";

/// The switch is lost when two packets have no logged answer, and the third has seen both.
const LOST: &str =
    r#"{"shape":{"stages":2,"arrays":1,"cells":2,"split":1,"hosts":2},"tuples":[[0,10],[1,20],[2,30],[3,40],[4,50]],"layout":[[0,0,0,0],[1,1,0,0],[4,0,0,1]],"tries":2,"clients":[[[["add",0,1,[]]]],[[["put",0,5,[]]]],[[["read",0]]],["lose"]],"schedule":"c0 c0 c1 c1 c2 c2 p1 s0 s1 p0 s0 s1 p2 s0 s1 c2 c3 r"}"#;

/// Sets the first byte of the third client's log to 0.
fn change(rt: &HostRuntime) -> io::Result<()> {
    const LOG: &str = "changed-log/client2.log";
    let mut bytes = fs::read(rt, LOG)?;
    if let Some(first) = bytes.first_mut() {
        *first = 0;
    }
    fs::write(rt, LOG, bytes.as_slice())
}

/// An actor's turn. None where the world has stopped.
fn take_turn<L: LogRack, N: RunName>(
    alloc: Global,
    world: &mut World<L, N>,
    actor: Actor,
) -> Option<Turn>
    requires { IsActor N.session actor }
{
    // Opened for what is true of each world.
    let _ = world.session();
    if world.stop().is_some() {
        return None;
    }
    Some(world.turn(alloc, actor))
}

/// The last turn of these actors, when the log is changed before each recovery.
fn take_each<L: LogRack, N: RunName>(
    rt: &HostRuntime,
    alloc: Global,
    world: &mut World<L, N>,
    actors: &[Actor],
) -> Option<Turn>
    requires { All (IsActor N.session) actors.now }
{
    let mut last = None;
    for actor in actors {
        if *actor == Actor::Recover {
            change(rt).ok()?;
        }
        last = take_turn(alloc, world, *actor);
    }
    last
}

/// The last turn of the session's schedule.
fn last_turn<N: RunName>(rt: &HostRuntime, alloc: Global, session: Session) -> Option<Turn>
    requires sound { IsSound (plan_of session) }
    requires named { plan_of session ≡ N.session }
    requires faults { N.faults ≡ 0 }
    requires kept { N.kept ≡ false }
{
    let actors = session.schedule.copy(alloc).ok()?;
    let rack = FileRack::at(rt, FOLDER);
    let mut world = World::<FileRack<HostRuntime>, N>::begin(alloc, session, rack).ok()?;
    take_each(rt, alloc, &mut world, actors.as_slice())
}

#[test]
fn a_log_that_is_changed_in_its_file_stops_the_recovery(rt: HostRuntime) -> Result<(), Fail> {
    let alloc = rt.alloc();
    let session = read_session(alloc, LOST.as_bytes()).expect(&rt, "the text is a session");
    let turn = last_turn::<Brand>(&rt, alloc, session);
    assert_eq!(rt; turn, Some(Turn::LogChanged(2, 0)));
    fs::remove_dir_all(&rt, FOLDER)?;
    Ok(())
}
