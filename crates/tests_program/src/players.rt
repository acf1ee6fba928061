// What players are shown of what others do, and which rules deny what to whom.
use crate::replay::first_wrong;
use std::test::Fail;

// Ann talks and walks, beside Bob and to where One is, who has built exits, one with a lock, and a program.
const TALK: &str = r#"1> connect One potrzebie / 1< Room Zero(#0R) / 1< Contents: / 1< Two(#4PM2)
1< Bob(#3P) / 1< Ann(#2PB) / 2> connect ann Bob / 2< Either that player does not exist, or has a different password.
2> connect ann Ann / 1< Ann has connected. / 2< Room Zero / 2< Contents: / 2< Two / 2< Bob / 2< One
3> connect bob Bob / 1< Bob has connected. / 2< Bob has connected. / 3< Room Zero / 3< Contents: / 3< Two / 3< Ann / 3< One
1> @dig Den / 1< Created Den(#5R). / 1> @open out;o=#5 / 1< Created out;o(#6E). / 1> @success out=You go out. / 1< Set.
1> @open door=#5 / 1< Created door(#7E). / 1> @lock door=#1 / 1< Locked. / 1> @fail door=It is locked. / 1< Set.
1> @ofail door=pulls at the door. / 1< Set. / 1> @program prog / 1< Created prog(#8FM3). / 1< Entering editor.
1> i / 1< Entering insert mode. / 1> : main me @ swap notify ; / 1> . / 1< Exiting insert mode. / 1> q / 1< Editor exited.
1> drop prog / 1< Dropped. / 1> @open call=prog / 1< Created call(#9E). / 1> @teleport me=#5 / 1< Teleported.
1> @open back=home / 1< Created back(#10E). / 1> @odrop back=is back. / 1< Set. / 2> @create box / 2< Created box(#11).
2> drop box / 2< Dropped. / 2> look / 2< Room Zero / 2< Contents: / 2< box(#11) / 2< prog / 2< Den / 2< Two / 2< Bob
2> examine box / 2< box(#11) / 2< Owner: Ann / 2< Lock: *UNLOCKED* / 2> examine bob / 2< Owner: Bob
2> SAY  hi / 2< You say, "hi" / 3< Ann says, "hi" / 2> "hi / 2< You say, "hi" / 3< Ann says, "hi"
2> page bob=come / 2< You page, "come" to Bob. / 3< Ann pages, "come" / 2> page two=come / 2< Two isn't connected.
2> whisper bob=psst / 2< You whisper, "psst" to Bob. / 3< Ann whispers, "psst" / 2> get bob / 2< That can't be done.
2> WHO / 2< One (1) / 2< Ann (2) / 2< Bob (3) / 2< 3 connected. / 2> take box / 2< Taken. / 2> look bob / 2< You see nothing special.
2> : waves. / 2< Ann waves. / 3< Ann waves. / 2> go door / 2< It is locked. / 3< Ann pulls at the door. / 2> call me now / 2< me now
2> move out / 1< Ann has arrived. / 2< You go out. / 2< Den / 2< Contents: / 2< One / 3< Ann has left.
2> home / 1< Ann has left. / 2< Room Zero / 2< Contents: / 2< prog / 2< Den / 2< Two / 2< Bob / 3< Ann has arrived.
2> go O / 1< Ann has arrived. / 2< You go out. / 2< Den / 2< Contents: / 2< One / 3< Ann has left.
2> go back / 1< Ann has left. / 2< Room Zero / 2< Contents: / 2< prog / 2< Den / 2< Two / 2< Bob / 3< Ann has arrived. / 3< Ann is back.
2> pose 's here. / 2< Ann's here. / 3< Ann's here. / 2> quit / 2< Come back later! / 2 closed / 3< Ann has disconnected."#;

// What One, Ann and Bob make, own and find, and what Two may do with what One gives away, and with what is One's.
const RULES: &str = r#"1> connect One potrzebie / 1< Room Zero(#0R) / 1< Contents:
1< Two(#4PM2) / 1< Bob(#3P) / 1< Ann(#2PB)
2> connect Ann Ann / 1< Ann has connected. / 2< Room Zero / 2< Contents: / 2< Two / 2< Bob / 2< One
3> connect Bob Bob / 1< Bob has connected. / 2< Bob has connected. / 3< Room Zero / 3< Contents: / 3< Two / 3< Ann / 3< One
3> @dig Hall / 3< Permission denied (P14). / 2> @dig Hall / 2< Permission denied (P15). / 3> @dig me / 3< That's not a reasonable name.
1> @dig Hall / 1< Created Hall(#5R). / 2> @create *box / 2< That's not a reasonable name. / 2> @create box / 2< Created box(#6).
2> @open out / 2< Permission denied (P15). / 2> @action push;p=box / 2< Created push;p(#7E). / 2> @find O / 2< box(#6) / 2< 1 found.
2> @find n / 2< Ann(#2PB) / 2< 1 found. / 3> @recycle #6 / 3< Permission denied (P20). / 2> @chown box=Bob / 2< Permission denied (P21).
1> @chown #6=Bob / 1< Owner changed. / 3> @find BO / 3< Bob(#3P) / 3< box(#6) / 3< 2 found. / 3> @recycle #6 / 3< Recycled.
2> @find p / 2< 0 found. / 2> @create cup / 2< Created cup(#6). / 3> @program x / 3< Permission denied (P22).
1> @create crate / 1< Created crate(#7). / 1> @teleport crate=#4 / 1< Teleported. / 1> @chown #7=Two / 1< Owner changed.
1> @dig loft / 1< Created loft(#8R). / 1> @chown #8=Two / 1< Owner changed.
1> @program clock / 1< Created clock(#9FM3). / 1< Entering editor. / 1> q / 1< Editor exited. / 1> @teleport clock=#4 / 1< Teleported.
1> @chown #9=Two / 1< Owner changed.
4> connect Two Two / 1< Two has connected. / 2< Two has connected. / 3< Two has connected. / 4< Room Zero / 4< Contents: / 4< loft(#8R)
4< Hall / 4< Bob / 4< Ann / 4< One / 4> @link crate=#8 / 4< Linked. / 4> @link one=#8 / 4< Permission denied (P12).
4> @link crate=#0 / 4< Permission denied (P13). / 4> @teleport crate=home / 4< Teleported. / 4> @unlink #7 / 4< Unlinked.
4> @teleport #7=home / 4< Teleported. / 4> @teleport crate=#0 / 4< Permission denied (P9). / 4> @fail one=No! / 4< Permission denied (P16).
4> @teleport one=#8 / 4< Permission denied (P8). / 4> @name me=bob / 4< That's not a reasonable name.
4> @lock crate=(me&!*bob)|x:y / 4< Locked. / 4> @name me=Four / 4< Permission denied (P17). / 4> @lock one=me / 4< Permission denied (P16).
4> examine crate / 4< crate(#7) / 4< Owner: Two / 4< Lock: #4&!#3|x:y / 4> @name one=me / 4< That's not a reasonable name.
4> @Program calendar / 4< Created calendar(#10FM2). / 4< Entering editor. / 4> q / 4< Editor exited.
1> @program secret / 1< Created secret(#11FM3). / 1< Entering editor. / 1> q / 1< Editor exited.
4> @run #11= / 4< Permission denied (P24). / 4> @edit clock / 4< Entering editor. / 4> i / 4< Entering insert mode. / 4> : main #11 call ;
4> . / 4< Exiting insert mode. / 4> q / 4< Editor exited. / 4> @run clock= / 4< Program error in #9: Permission denied (P24)."#;

#[test]
fn players_read(rt: HostRuntime) -> Result<(), Fail> {
    assert_eq!(rt; first_wrong(rt.alloc(), TALK)?, None);
    assert_eq!(rt; first_wrong(rt.alloc(), RULES)?, None);
    Ok(())
}
