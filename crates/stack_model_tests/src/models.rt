//! Models of all kinds, as the pieces of their files.

/// A model by its name, and the pieces of its file.
#[derive(Clone, Copy)]
pub struct Named {
    pub name: &'static str,
    pub pieces: &'static [&'static str],
}

const STONE: &str = "[[material]]\nname = 'stone'\nweight = 1\nfriction = [1, 1]\n";

const GROUND: &str = "[[block]]\nname = 'ground'\nmaterial = 'stone'\nfixed = true\n\
    corners = [[-10, -1], [10, -1], [10, 0], [-10, 0]]\n";

const POST: &str =
    "[[block]]\nname = 'post'\nmaterial = 'stone'\ncorners = [[0, 0], [2, 0], [2, 4], [0, 4]]\n";

/// A live load that pushes the post to the right at its upper left corner.
const PUSH: &str = "[[load]]\nblock = 'post'\nkind = 'live'\nat = [0, 4]\nforce = [1, 0]\n";

/// One that presses it in the middle of its head.
const PRESSURE: &str = "[[load]]\nblock = 'post'\nkind = 'live'\nat = [1, 4]\nforce = [0, -1]\n";

const SLIPPERY: &str = "[[material]]\nname = 'stone'\nweight = 1\nfriction = [1, 10]\n";

/// A cube on a ramp that rises by three in four.
const CUBE: &str = "[[block]]\nname = 'ramp'\nmaterial = 'stone'\nfixed = true\n\
    corners = [[0, 0], [12, 0], [12, 9]]\n\
    [[block]]\nname = 'cube'\nmaterial = 'stone'\ncorners = [[4, 3], [8, 6], [5, 10], [1, 7]]\n";

/// A key that is wedged between two fixed blocks, and a live load that lifts it.
const KEY: &str = "[[block]]\nname = 'left'\nmaterial = 'stone'\nfixed = true\n\
    corners = [[-10, 0], [-1, 0], [-2, 4], [-10, 4]]\n\
    [[block]]\nname = 'right'\nmaterial = 'stone'\nfixed = true\n\
    corners = [[1, 0], [10, 0], [10, 4], [2, 4]]\n\
    [[block]]\nname = 'key'\nmaterial = 'stone'\ncorners = [[-1, 0], [1, 0], [2, 4], [-2, 4]]\n\
    [[load]]\nblock = 'key'\nkind = 'live'\nat = [0, 4]\nforce = [0, 1]\n";

const HALF: &str = "[[material]]\nname = 'stone'\nweight = 1\nfriction = [1, 2]\n";

/// Four blocks in two courses, in stack bond.
const FOUR: &str = "[[block]]\nname = 'a'\nmaterial = 'stone'\n\
    corners = [[0, 0], [2, 0], [2, 1], [0, 1]]\n\
    [[block]]\nname = 'b'\nmaterial = 'stone'\ncorners = [[2, 0], [4, 0], [4, 1], [2, 1]]\n\
    [[block]]\nname = 'c'\nmaterial = 'stone'\ncorners = [[0, 1], [2, 1], [2, 2], [0, 2]]\n\
    [[block]]\nname = 'd'\nmaterial = 'stone'\ncorners = [[2, 1], [4, 1], [4, 2], [2, 2]]\n";

/// Models of which each is written so that it is read back.
pub const MODELS: &[Named] = &[
    Named {
        name: "a post",
        pieces: &[STONE, GROUND, POST],
    },
    Named {
        name: "a pushed post",
        pieces: &[STONE, GROUND, POST, PUSH],
    },
    Named {
        name: "a pushed post on slippery ground",
        pieces: &[SLIPPERY, GROUND, POST, PUSH],
    },
    Named {
        name: "a pressed post",
        pieces: &[STONE, GROUND, POST, PRESSURE],
    },
    Named {
        name: "a cube that a ramp holds",
        pieces: &[
            "[[material]]\nname = 'stone'\nweight = 1\nfriction = [3, 4]\n",
            CUBE,
        ],
    },
    Named {
        name: "a cube that slides",
        pieces: &[
            "[[material]]\nname = 'stone'\nweight = 1\nfriction = [7, 10]\n",
            CUBE,
        ],
    },
    Named {
        name: "a key without friction",
        pieces: &[
            "[[material]]\nname = 'stone'\nweight = 1\nfriction = [0, 1]\n",
            KEY,
        ],
    },
    Named {
        name: "a key with some",
        pieces: &[
            "[[material]]\nname = 'stone'\nweight = 1\nfriction = [1, 4]\n",
            KEY,
        ],
    },
    Named {
        name: "a key that is held",
        pieces: &[
            "[[material]]\nname = 'stone'\nweight = 1\nfriction = [3, 10]\n",
            KEY,
        ],
    },
    Named {
        name: "four blocks in stack bond",
        pieces: &[HALF, GROUND, FOUR],
    },
    Named {
        name: "a diamond on its corner",
        pieces: &[
            STONE,
            GROUND,
            "[[block]]\nname = 'gem'\nmaterial = 'stone'\ncorners = [[0, 0], [2, 2], [0, 4], [-2, 2]]\n",
            "[[load]]\nblock = 'gem'\nkind = 'live'\nat = [0, 4]\nforce = [1, 0]\n",
        ],
    },
    Named {
        name: "a corner on a corner",
        pieces: &[
            STONE,
            "[[block]]\nname = 'base'\nmaterial = 'stone'\nfixed = true\n\
            corners = [[-4, -4], [0, -4], [0, 0], [-4, 0]]\n",
            "[[block]]\nname = 'top'\nmaterial = 'stone'\ncorners = [[0, 0], [2, 0], [2, 2], [0, 2]]\n",
        ],
    },
    Named {
        name: "two blocks that overlap",
        pieces: &[
            STONE,
            "[[block]]\nname = 'a'\nmaterial = 'stone'\ncorners = [[0, 0], [2, 0], [2, 2], [0, 2]]\n",
            "[[block]]\nname = 'b'\nmaterial = 'stone'\ncorners = [[1, 1], [3, 1], [3, 3], [1, 3]]\n",
        ],
    },
    Named {
        name: "a post drawn clockwise",
        pieces: &[
            STONE,
            GROUND,
            "[[block]]\nname = 'post'\nmaterial = 'stone'\ncorners = [[0, 0], [0, 4], [2, 4], [2, 0]]\n",
        ],
    },
    Named {
        name: "a post in the air",
        pieces: &[
            STONE,
            GROUND,
            "[[block]]\nname = 'post'\nmaterial = 'stone'\ncorners = [[0, 1], [2, 1], [2, 5], [0, 5]]\n",
        ],
    },
    Named {
        name: "a slender post",
        pieces: &[
            "[[material]]\nname = 'stone'\nweight = 1\nfriction = [1, 50]\n",
            GROUND,
            "[[block]]\nname = 'post'\nmaterial = 'stone'\ncorners = [[0, 0], [1, 0], [1, 4], [0, 4]]\n",
        ],
    },
    Named {
        name: "the greatest block",
        pieces: &[
            "[[material]]\nname = 'stone'\nweight = 1000000\nfriction = [1, 1]\n",
            "[[block]]\nname = 'post'\nmaterial = 'stone'\ncorners = [[-1000000, -1000000], [1000000, -1000000], \
            [1000000, 1000000], [-1000000, 1000000]]\n",
        ],
    },
    Named {
        name: "a post with a joint of its own",
        pieces: &[
            "version = 2\n",
            SLIPPERY,
            GROUND,
            POST,
            PUSH,
            "[[joint]]\nfirst = 'stone'\nsecond = 'stone'\nfriction = [1, 1]\n",
        ],
    },
    Named {
        name: "a post in an earthquake",
        pieces: &["version = 2\nsway = [1, 0]\n", STONE, GROUND, POST],
    },
    Named {
        name: "a post that is pushed and pressed",
        pieces: &[STONE, GROUND, POST, PUSH, PRESSURE],
    },
    Named {
        name: "two pairs that overlap",
        pieces: &[
            STONE,
            "[[block]]\nname = 'p'\nmaterial = 'stone'\ncorners = [[10, 0], [12, 0], [12, 2], [10, 2]]\n",
            "[[block]]\nname = 'q'\nmaterial = 'stone'\ncorners = [[11, 1], [13, 1], [13, 3], [11, 3]]\n",
            "[[block]]\nname = 'r'\nmaterial = 'stone'\ncorners = [[0, 0], [2, 0], [2, 2], [0, 2]]\n",
            "[[block]]\nname = 's'\nmaterial = 'stone'\ncorners = [[1, 1], [3, 1], [3, 3], [1, 3]]\n",
        ],
    },
];
