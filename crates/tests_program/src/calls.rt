// What calls of the world answer, also where they may not be made, and processes that wait for one another.
use crate::replay::first_wrong;
use muck_machine::World;
use muck_model::Line;
use std::test::Fail;

const CONNECTIONS: &str = "0: exec / 0: run / 0: send 3 look / 0: close 3
1: open 7 / 7< Use: connect NAME PASSWORD, WHO or QUIT. / 1: open 3 / 3< Use: connect NAME PASSWORD, WHO or QUIT. / 0: open 3
1: send 3 connect Zed potrzebie / 3: exec / 3< Either that player does not exist, or has a different password.
1: send 7 CONNECT oNE potrzebie / 1: send 3   connect  One  potrzebie
3: exec / 3< Room Zero(#0R) / 3< Contents: / 3< Two(#4PM2) / 3< Bob(#3P) / 3< Ann(#2PB)
7: exec / 7< Room Zero(#0R) / 7< Contents: / 7< Two(#4PM2) / 7< Bob(#3P) / 7< Ann(#2PB) / 0: exec / 3> \" a\rb / 3< You say, \"a / 3< b\"
3> say a \r / 3< You say, \"a / 3< \" / 3> say\ra b / 3< Huh?  (Type \"help\" for help.) / 3> \r say a / 3< Huh?  (Type \"help\" for help.)
1: send 3 QUIT / 1: send 3 look / 3: exec / 3< Come back later! / 0: exec / 0: send 3 look / 1: close 3 / 0: close 3
1: open 3 / 3< Use: connect NAME PASSWORD, WHO or QUIT. / 1: send 3 who / 1: send 3 connect Two Two / 1: send 3 :waves / 1: send 3 QUIT
1: send 3 look
4: settle / 3< One (7) / 3< 1 connected. / 3< Room Zero / 3< Contents: / 3< Bob / 3< Ann / 3< One / 3< Two waves / 3< Come back later!
7< Two has connected. / 7< Two waves / 0: settle / 1: close 3 / 7< Two has disconnected. / 1: send 7 look / 1: halt / 0: exec
0: send 7 look / 0: open 9 / 1: close 7 / 1: died / 0: open 9 / 0: close 3";

// A process is tied to the connection that started it, whose next line waits until it has run, and it ends with that connection,
// and where its source changes. Of two that may go on at once the one with the lower number is claimed; a third isn't started.
const PROCESSES: &str = r#"1> connect One potrzebie / 1< Room Zero(#0R) / 1< Contents:
1< Two(#4PM2) / 1< Bob(#3P) / 1< Ann(#2PB) / 1> @dig Den / 1< Created Den(#5R). / 1> @teleport me=#5 / 1< Teleported.
1> @program greet / 1< Created greet(#6FM3). / 1< Entering editor. / 1> i / 1< Entering insert mode. / 1> : main pop #1 "hi" notify ;
1> . / 1< Exiting insert mode. / 1> q / 1< Editor exited. / 1> @open run=greet / 1< Created run(#7E). / 1: send 1 run / 1: send 1 "done
1: exec / 0: exec / 1: run / 1< hi / 1: exec / 1< You say, "done" / 0: run / 1: send 1 run / 1: exec / 1: close 1 / 0: run
1> connect One potrzebie / 1< Den(#5R) / 2> connect One potrzebie / 2< Den(#5R) / 3> connect One potrzebie / 3< Den(#5R) / 1: send 1 run
1: exec / 1: send 2 @edit greet / 1: send 2 1 d / 1: send 2 c / 3: settle / 2< Entering editor. / 2< Deleted. / 2< Error 36 in line 1.
0: run / 2> i / 2< Entering insert mode. / 2> : main pop #1 "hello" notify ; / 2> . / 2< Exiting insert mode. / 2> c / 2< Compiler done.
2> q / 2< Editor exited. / 1: send 2 run / 2: exec / 1: send 1 run / 1: exec / 1: send 3 run / 3: exec / 3< Too many processes. / 4: claim
5: run / 1< hello / 2< hello / 3< hello / 0: claim"#;

// Who may idle: the porter and the workers where no line and no process waits for them, and the dumper where no dump is due. A process
// that is claimed and ends is lost, and one that waits for time to pass is tied to its connection meanwhile.
const WAITS: &str =
    r#"1: idle 0 / 1: idle 8 / 1: idle 9 / 1: wait 1 / 0: idle 9 / 1> connect One potrzebie / 1< Room Zero(#0R) / 1< Contents:
1< Two(#4PM2) / 1< Bob(#3P) / 1< Ann(#2PB) / 1> @program naps / 1< Created naps(#5FM3). / 1< Entering editor. / 1> i
1< Entering insert mode. / 1> : main pop 2 sleep #1 "up" notify ; / 1> . / 1< Exiting insert mode. / 1> q / 1< Editor exited.
1: send 1 @run naps= / 0: idle 0 / 0: idle 3 / 1: exec / 0: idle 0 / 1: tied 1 / 0: tied 2 / 1: run / 1: idle 0 / 1: tied 1 / 0: exec
1: send 1 "hi / 0: exec / 1: idle 0 / 1: wait 1 / 0: claim / 1: wait 1 / 0: idle 8 / 1: run / 1< up / 0: tied 1 / 0: idle 0
1: exec / 1< You say, "hi" / 1: send 1 @run naps= / 1: exec / 1: lose 1 / 0: lose 1 / 0: run / 1: idle 0 / 1: died / 0: idle 0 / 0: wait 1"#;

// KILL and QUEUE by a program of another player, of level 3: a rule denies it. It may end itself.
const ENDS: &str =
    r#"1> connect One potrzebie / 1< Room Zero(#0R) / 1< Contents: / 1< Two(#4PM2) / 1< Bob(#3P) / 1< Ann(#2PB)
1> @program stays / 1< Created stays(#5FM3). / 1< Entering editor. / 1> i / 1< Entering insert mode. / 1> : main background pop 9 sleep ;
1> . / 1< Exiting insert mode. / 1> q / 1< Editor exited. / 1> @run stays= / 1> @set *Two=M3 / 1< Flag set.
4> connect Two Two / 1< Two has connected. / 4< Room Zero / 4< Contents: / 4< Bob / 4< Ann / 4< One
4> @program ends / 4< Created ends(#6FM3). / 4< Entering editor. / 4> i / 4< Entering insert mode. / 4> : tell me @ swap notify ;
4> : main pop 1 1 try kill catch tell endcatch 1 #5 "x" 3 try queue catch tell endcatch "end" tell pid kill pop "not shown" tell ;
4> . / 4< Exiting insert mode. / 4> q / 4< Editor exited.
4> @run ends= / 4< Permission denied (P23). / 4< Permission denied (P24). / 4< end"#;

#[test]
fn answers(rt: HostRuntime) -> Result<(), Fail> {
    assert_eq!(rt; first_wrong(rt.alloc(), CONNECTIONS)?, None);
    assert_eq!(rt; first_wrong(rt.alloc(), PROCESSES)?, None);
    assert_eq!(rt; first_wrong(rt.alloc(), WAITS)?, None);
    assert_eq!(rt; first_wrong(rt.alloc(), ENDS)?, None);
    Ok(())
}

#[test]
fn has_bounds(rt: HostRuntime) {
    let line = || Line::new(rt.alloc(), b"x").expect(&rt, "memory");
    let mut world = World::starting(rt.alloc()).expect(&rt, "memory");
    for d in 1..=256 {
        assert!(rt; world.opened(d) == Ok(true), "at {d}");
    }
    assert!(rt; world.opened(0) == Ok(false));
    for at in 0..64 {
        assert!(rt; world.input(9, line()) == Ok(true), "at {at}");
    }
    assert!(rt; world.input(9, line()) == Ok(false) && world.waiting(9) == 64);
    let _ = world.into_tale();
}
