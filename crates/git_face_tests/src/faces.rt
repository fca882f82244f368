//! What is answered of chambers by their faces, worked by hand.
use crate::chambers::listing;
use git_allcones::all_faces;
use git_base::Status;
use git_cone_replies::cones_reply;
use std::test::Fail;

/// The inputs whose columns generate the chambers, and what is answered.
#[derive(Clone, Copy)]
struct Case {
    name: &'static str,
    k: u32,
    cones: &'static [&'static str],
    text: &'static str,
}

const PLANE: [Case; 3] = [
    Case {
        name: "cones-of-fan",
        k: 2,
        cones: &[
            "gitfan 1\ngrading 2 2\n0 1\n1 1\nideal 0\nend\n",
            "gitfan 1\ngrading 2 2\n1 1\n0 1\nideal 0\nend\n",
        ],
        text: "gitfan-cones 1
dimension 0 count 1
cone
dimension 1 count 3
cone 0 1
cone 1 0
cone 1 1
dimension 2 count 2
cone 0 1 ; 1 1
cone 1 0 ; 1 1
fan yes
end
",
    },
    Case {
        name: "cones-of-overlap",
        k: 2,
        cones: &[
            "gitfan 1\ngrading 2 2\n-2 1\n3 0\nideal 0\nend\n",
            "gitfan 1\ngrading 2 2\n0 3\n1 -2\nideal 0\nend\n",
        ],
        text: "gitfan-cones 1
dimension 0 count 1
cone
dimension 1 count 4
cone -2 3
cone 0 1
cone 1 0
cone 3 -2
dimension 2 count 2
cone -2 3 ; 1 0
cone 0 1 ; 3 -2
fan no 1 2
end
",
    },
    Case {
        name: "no chamber",
        k: 3,
        cones: &[],
        text: "gitfan-cones 1
dimension 0 count 0
dimension 1 count 0
dimension 2 count 0
dimension 3 count 0
fan yes
end
",
    },
];

const SPACE: [Case; 3] = [
    Case {
        name: "the same cone twice",
        k: 1,
        cones: &[
            "gitfan 1\ngrading 1 1\n2\nideal 0\nend\n",
            "gitfan 1\ngrading 1 2\n1 3\nideal 0\nend\n",
        ],
        text: "gitfan-cones 1
dimension 0 count 1
cone
dimension 1 count 1
cone 1
fan yes
end
",
    },
    // A square over (0,0), (1,0), (0,1), (1,1) at height 1, and beside it, from (1,0) on, a square twice as wide, which
    // has half of its side from (1,0) to (1,2) in common with the first.
    Case {
        name: "a side and half a side",
        k: 3,
        cones: &[
            "gitfan 1\ngrading 3 4\n0 1 0 1\n0 0 1 1\n1 1 1 1\nideal 0\nend\n",
            "gitfan 1\ngrading 3 4\n1 3 1 3\n0 0 2 2\n1 1 1 1\nideal 0\nend\n",
        ],
        text: "gitfan-cones 1
dimension 0 count 1
cone
dimension 1 count 7
cone 0 0 1
cone 0 1 1
cone 1 0 1
cone 1 1 1
cone 1 2 1
cone 3 0 1
cone 3 2 1
dimension 2 count 8
cone 0 0 1 ; 0 1 1
cone 0 0 1 ; 1 0 1
cone 0 1 1 ; 1 1 1
cone 1 0 1 ; 1 1 1
cone 1 0 1 ; 1 2 1
cone 1 0 1 ; 3 0 1
cone 1 2 1 ; 3 2 1
cone 3 0 1 ; 3 2 1
dimension 3 count 2
cone 0 0 1 ; 0 1 1 ; 1 0 1 ; 1 1 1
cone 1 0 1 ; 1 2 1 ; 3 0 1 ; 3 2 1
fan no 1 2
end
",
    },
    // Three cones around the ray (1,1,1): each two meet in a wall, all three in the ray.
    Case {
        name: "three around a ray",
        k: 3,
        cones: &[
            "gitfan 1\ngrading 3 3\n1 0 1\n0 1 1\n0 0 1\nideal 0\nend\n",
            "gitfan 1\ngrading 3 3\n1 0 1\n0 0 1\n0 1 1\nideal 0\nend\n",
            "gitfan 1\ngrading 3 3\n0 0 1\n1 0 1\n0 1 1\nideal 0\nend\n",
        ],
        text: "gitfan-cones 1
dimension 0 count 1
cone
dimension 1 count 4
cone 0 0 1
cone 0 1 0
cone 1 0 0
cone 1 1 1
dimension 2 count 6
cone 0 0 1 ; 0 1 0
cone 0 0 1 ; 1 0 0
cone 0 0 1 ; 1 1 1
cone 0 1 0 ; 1 0 0
cone 0 1 0 ; 1 1 1
cone 1 0 0 ; 1 1 1
dimension 3 count 3
cone 0 0 1 ; 0 1 0 ; 1 1 1
cone 0 0 1 ; 1 0 0 ; 1 1 1
cone 0 1 0 ; 1 0 0 ; 1 1 1
fan yes
end
",
    },
];

#[test]
fn chambers_of_the_plane_have_their_faces(rt: HostRuntime) -> Result<(), Fail> {
    for case in &PLANE {
        let listing = listing(rt.alloc(), case.k, case.cones)?;
        let reply = cones_reply(rt.alloc(), &listing)?;
        assert_eq!(rt;
            reply.text.as_slice(),
            case.text.as_bytes(),
            "{}",
            case.name
        );
        assert!(rt; matches!(reply.status, Status::Done), "{}", case.name);
    }
    Ok(())
}

#[test]
fn chambers_of_space_have_their_faces(rt: HostRuntime) -> Result<(), Fail> {
    for case in &SPACE {
        let listing = listing(rt.alloc(), case.k, case.cones)?;
        let reply = cones_reply(rt.alloc(), &listing)?;
        assert_eq!(rt;
            reply.text.as_slice(),
            case.text.as_bytes(),
            "{}",
            case.name
        );
        assert!(rt; matches!(reply.status, Status::Done), "{}", case.name);
    }
    Ok(())
}

/// The cone over a cube: its corners, edges and sides are faces, and the whole and 0 are.
#[test]
fn a_cube_has_its_faces(rt: HostRuntime) -> Result<(), Fail> {
    let cube = "gitfan 1
grading 4 8
0 1 0 1 0 1 0 1
0 0 1 1 0 0 1 1
0 0 0 0 1 1 1 1
1 1 1 1 1 1 1 1
ideal 0
end
";
    let listing = listing(rt.alloc(), 4, &[cube])?;
    let faces = all_faces(rt.alloc(), listing.k, &listing)?;
    for (dimension, count) in [(0, 1), (1, 8), (2, 12), (3, 6), (4, 1)] {
        let found = faces.iter().filter(|f| f.dimension == dimension).count();
        assert_eq!(rt; found, count, "dimension {dimension}");
    }
    let reply = cones_reply(rt.alloc(), &listing)?;
    assert!(rt; reply.text.as_slice().ends_with(b"\nfan yes\nend\n"));
    Ok(())
}
