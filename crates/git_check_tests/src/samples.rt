//! Check texts: an input, a listing and certificates, one directly after the other. The listings are worked by hand or
//! those of the examples, and the certificates are those of `faces`.

/// Three columns of the plane, the ideal 0, its two chambers, and certificates.
pub const TWO: &str = "gitfan 1
grading 2 3
1 1 0
0 1 1
ideal 0
end
gitfan-listing 2
grading 2 3
cones 3
chambers 2
chamber 1
ray 0 1
ray 1 1
weight 1 2
facet -1 1 inner 2 matched
facet 1 0 boundary
chamber 2
ray 1 0
ray 1 1
weight 2 1
facet 0 1 boundary
facet 1 -1 inner 1 matched
end
gitfan-certs 1
faces 4
face 7 free 1
g -T(1)*T(2)*T(3)*y+1
face 6 free 1
g -T(2)*T(3)*y+1
face 5 free 1
g -T(1)*T(3)*y+1
face 3 free 1
g -T(1)*T(2)*y+1
end
";

/// The same with a listing of version 1.
pub const OLD: &str = "gitfan 1
grading 2 3
1 1 0
0 1 1
ideal 0
end
gitfan-listing 1
grading 2 3
cones 3
chambers 2
chamber 1
ray 0 1
ray 1 1
weight 1 2
facet -1 1 inner 2
facet 1 0 boundary
chamber 2
ray 1 0
ray 1 1
weight 2 1
facet 0 1 boundary
facet 1 -1 inner 1
end
gitfan-certs 1
faces 4
face 7 free 1
g -T(1)*T(2)*T(3)*y+1
face 6 free 1
g -T(2)*T(3)*y+1
face 5 free 1
g -T(1)*T(3)*y+1
face 3 free 1
g -T(1)*T(2)*y+1
end
";

/// A chamber with a further cone in it, which its weight touches.
pub const CROSSED: &str = "gitfan 1
grading 2 3
2 0 1
0 2 1
ideal 1
T(1)^2*T(2)-T(1)*T(3)^2
end
gitfan-listing 2
grading 2 3
cones 2
chambers 1
chamber 1
ray 0 1
ray 1 0
weight 1 1
crossed 1
facet 0 1 boundary
facet 1 0 boundary
end
gitfan-certs 1
faces 4
face 7 free 5
g T(1)^2*T(2)-T(1)*T(3)^2
g -T(1)*T(2)*T(3)*y+1
g -T(1)*T(3)^3*y+T(1)
g T(1)*T(2)-T(3)^2
g T(3)^3*y-1
face 6 free 1
g -T(2)*T(3)*y+1
face 5 monomial 2 1
h -T(1)
face 3 monomial 2 1
h T(2)
end
";

/// The same with the variables changed over, so that the further cone has a chamber too, which is the first.
pub const TURNED: &str = "gitfan 1
grading 2 3
2 0 1
0 2 1
ideal 1
T(1)*T(2)^2-T(2)*T(3)^2
end
gitfan-listing 2
grading 2 3
cones 2
chambers 2
chamber 1
ray 0 1
ray 1 0
weight 1 1
crossed 1
facet 0 1 boundary
facet 1 0 boundary
chamber 2
ray 1 0
ray 1 1
weight 2 1
facet 0 1 boundary
facet 1 -1 inner 1 unmatched
end
gitfan-certs 1
faces 4
face 7 free 5
g T(1)*T(2)^2-T(2)*T(3)^2
g -T(1)*T(2)*T(3)*y+1
g -T(2)*T(3)^3*y+T(2)
g T(1)*T(2)-T(3)^2
g T(3)^3*y-1
face 6 monomial 2 1
h -T(2)
face 5 free 1
g -T(1)*T(3)*y+1
face 3 monomial 2 1
h T(1)
end
";

/// Two chambers that overlap.
pub const OVERLAP: &str = "gitfan 1
grading 2 4
9 1 0 -2
-6 0 1 3
ideal 8
T(1)*T(2)^10-T(1)^2*T(2)*T(3)^6
T(2)^10*T(3)-T(1)*T(2)*T(3)^7
T(1)*T(2)^9*T(4)-T(1)^2*T(3)^6*T(4)
T(2)^9*T(3)*T(4)-T(1)*T(3)^7*T(4)
T(1)*T(2)*T(3)^3-T(1)*T(2)^3*T(4)
T(2)*T(3)^4-T(2)^3*T(3)*T(4)
T(1)*T(3)^3*T(4)-T(1)*T(2)^2*T(4)^2
T(3)^4*T(4)-T(2)^2*T(3)*T(4)^2
end
gitfan-listing 2
grading 2 4
cones 3
chambers 2
chamber 1
ray -2 3
ray 1 0
weight -1 3
facet 0 1 inner 2 unmatched
facet 3 2 boundary
chamber 2
ray 0 1
ray 3 -2
weight 3 -1
facet 1 0 inner 1 unmatched
facet 2 3 boundary
end
gitfan-certs 1
faces 11
face 15 free 19
g T(1)*T(2)^10-T(1)^2*T(2)*T(3)^6
g T(2)^10*T(3)-T(1)*T(2)*T(3)^7
g T(1)*T(2)^9*T(4)-T(1)^2*T(3)^6*T(4)
g T(2)^9*T(3)*T(4)-T(1)*T(3)^7*T(4)
g T(1)*T(2)*T(3)^3-T(1)*T(2)^3*T(4)
g T(2)*T(3)^4-T(2)^3*T(3)*T(4)
g T(1)*T(3)^3*T(4)-T(1)*T(2)^2*T(4)^2
g T(3)^4*T(4)-T(2)^2*T(3)*T(4)^2
g -T(1)*T(2)*T(3)*T(4)*y+1
g -T(1)*T(2)^3*T(4)^2*y+T(3)^2
g T(3)^3-T(2)^2*T(4)
g T(2)^6*T(3)^2-T(1)*T(2)*T(3)^2*T(4)^2
g -T(2)^8*T(4)+T(1)*T(2)*T(3)^3*T(4)^2
g -T(2)^5*T(3)+T(1)*T(3)*T(4)^2
g -T(2)^7*T(4)+T(1)*T(3)^3*T(4)^2
g T(1)^2*T(3)*T(4)^3*y-T(2)^4
g T(2)^5-T(1)*T(4)^2
g -T(1)^2*T(2)^2*T(4)^4*y+T(2)^4*T(3)^2
g T(1)^2*T(4)^4*y-T(2)^2*T(3)^2
face 14 monomial 7 8
h 0
h 0
h 0
h T(2)^2*T(4)^8
h 0
h T(2)^6*T(3)^3*T(4)^7+T(2)^8*T(4)^8
h 0
h 0
face 13 monomial 3 8
h 0
h 0
h 0
h 0
h 0
h 0
h T(1)^2*T(4)^2
h 0
face 12 monomial 4 8
h 0
h 0
h 0
h 0
h 0
h 0
h 0
h T(4)^3
face 11 monomial 2 8
h 0
h 0
h 0
h 0
h 0
h 0
h -T(1)
h 0
face 10 free 1
g -T(2)*T(4)*y+1
face 9 free 1
g -T(1)*T(4)*y+1
face 7 monomial 3 8
h 0
h 0
h 0
h 0
h T(1)^2*T(2)^2
h 0
h 0
h 0
face 6 monomial 4 8
h 0
h 0
h 0
h 0
h 0
h T(2)^3
h 0
h 0
face 5 free 1
g -T(1)*T(3)*y+1
face 3 monomial 10 8
h T(1)^9
h 0
h 0
h 0
h 0
h 0
h 0
h 0
end
";

/// The same in version 1 with a third chamber, which is closed under crossing and not reached.
pub const UNREACHED: &str = "gitfan 1
grading 2 4
9 1 0 -2
-6 0 1 3
ideal 8
T(1)*T(2)^10-T(1)^2*T(2)*T(3)^6
T(2)^10*T(3)-T(1)*T(2)*T(3)^7
T(1)*T(2)^9*T(4)-T(1)^2*T(3)^6*T(4)
T(2)^9*T(3)*T(4)-T(1)*T(3)^7*T(4)
T(1)*T(2)*T(3)^3-T(1)*T(2)^3*T(4)
T(2)*T(3)^4-T(2)^3*T(3)*T(4)
T(1)*T(3)^3*T(4)-T(1)*T(2)^2*T(4)^2
T(3)^4*T(4)-T(2)^2*T(3)*T(4)^2
end
gitfan-listing 1
grading 2 4
cones 3
chambers 3
chamber 1
ray -2 3
ray 1 0
weight -1 3
facet 0 1 inner 3
facet 3 2 boundary
chamber 2
ray 0 1
ray 1 0
weight 1 1
facet 0 1 inner 3
facet 1 0 inner 1
chamber 3
ray 0 1
ray 3 -2
weight 3 -1
facet 1 0 inner 1
facet 2 3 boundary
end
gitfan-certs 1
faces 11
face 15 free 19
g T(1)*T(2)^10-T(1)^2*T(2)*T(3)^6
g T(2)^10*T(3)-T(1)*T(2)*T(3)^7
g T(1)*T(2)^9*T(4)-T(1)^2*T(3)^6*T(4)
g T(2)^9*T(3)*T(4)-T(1)*T(3)^7*T(4)
g T(1)*T(2)*T(3)^3-T(1)*T(2)^3*T(4)
g T(2)*T(3)^4-T(2)^3*T(3)*T(4)
g T(1)*T(3)^3*T(4)-T(1)*T(2)^2*T(4)^2
g T(3)^4*T(4)-T(2)^2*T(3)*T(4)^2
g -T(1)*T(2)*T(3)*T(4)*y+1
g -T(1)*T(2)^3*T(4)^2*y+T(3)^2
g T(3)^3-T(2)^2*T(4)
g T(2)^6*T(3)^2-T(1)*T(2)*T(3)^2*T(4)^2
g -T(2)^8*T(4)+T(1)*T(2)*T(3)^3*T(4)^2
g -T(2)^5*T(3)+T(1)*T(3)*T(4)^2
g -T(2)^7*T(4)+T(1)*T(3)^3*T(4)^2
g T(1)^2*T(3)*T(4)^3*y-T(2)^4
g T(2)^5-T(1)*T(4)^2
g -T(1)^2*T(2)^2*T(4)^4*y+T(2)^4*T(3)^2
g T(1)^2*T(4)^4*y-T(2)^2*T(3)^2
face 14 monomial 7 8
h 0
h 0
h 0
h T(2)^2*T(4)^8
h 0
h T(2)^6*T(3)^3*T(4)^7+T(2)^8*T(4)^8
h 0
h 0
face 13 monomial 3 8
h 0
h 0
h 0
h 0
h 0
h 0
h T(1)^2*T(4)^2
h 0
face 12 monomial 4 8
h 0
h 0
h 0
h 0
h 0
h 0
h 0
h T(4)^3
face 11 monomial 2 8
h 0
h 0
h 0
h 0
h 0
h 0
h -T(1)
h 0
face 10 free 1
g -T(2)*T(4)*y+1
face 9 free 1
g -T(1)*T(4)*y+1
face 7 monomial 3 8
h 0
h 0
h 0
h 0
h T(1)^2*T(2)^2
h 0
h 0
h 0
face 6 monomial 4 8
h 0
h 0
h 0
h 0
h 0
h T(2)^3
h 0
h 0
face 5 free 1
g -T(1)*T(3)*y+1
face 3 monomial 10 8
h T(1)^9
h 0
h 0
h 0
h 0
h 0
h 0
h 0
end
";

/// An ideal with a monomial.
pub const MONOMIAL: &str = "gitfan 1
grading 2 3
1 1 0
0 1 1
ideal 1
T(1)*T(2)
end
gitfan-listing 2
grading 2 3
cones 3
chambers 2
chamber 1
ray 0 1
ray 1 1
weight 1 2
facet -1 1 inner 2 matched
facet 1 0 boundary
chamber 2
ray 1 0
ray 1 1
weight 2 1
facet 0 1 boundary
facet 1 -1 inner 1 matched
end
gitfan-certs 1
faces 4
face 7 monomial 1 1
h T(3)
face 6 free 1
g -T(2)*T(3)*y+1
face 5 free 1
g -T(1)*T(3)*y+1
face 3 monomial 1 1
h 1
end
";

/// A cone with wide facets.
pub const WIDE_CONE: &str = "gitfan 1
grading 6 6
1 0 0 0 0 0
999 1 0 0 0 0
0 999 1 0 0 0
0 0 999 1 0 0
0 0 0 999 1 0
0 0 0 0 999 1
ideal 0
end
gitfan-listing 2
grading 6 6
cones 1
chambers 1
chamber 1
ray 0 0 0 0 0 1
weight 0 0 0 0 0 1
facet 0 0 0 0 0 1 boundary
end
gitfan-certs 1
faces 1
face 63 free 1
g -T(1)*T(2)*T(3)*T(4)*T(5)*T(6)*y+1
end
";

/// Four columns whose cone is narrow, and whose facets are wide.
pub const WIDE_CHAMBER: &str = "gitfan 1
grading 3 4
-601 -932 933 974
551 -997 -673 748
986 924 879 906
ideal 0
end
gitfan-listing 2
grading 3 4
cones 5
chambers 1
chamber 1
ray -932 -997 924
ray -601 551 986
ray 933 -673 879
ray 974 748 906
weight 374 -371 3695
facet 0 0 1 boundary
end
gitfan-certs 1
faces 5
face 15 free 1
g -T(1)*T(2)*T(3)*T(4)*y+1
face 14 free 1
g -T(2)*T(3)*T(4)*y+1
face 13 free 1
g -T(1)*T(3)*T(4)*y+1
face 11 free 1
g -T(1)*T(2)*T(4)*y+1
face 7 free 1
g -T(1)*T(2)*T(3)*y+1
end
";

/// The planes in four-space.
pub const PLANES: &str = "gitfan 1
grading 4 6
1 1 1 0 0 0
1 0 0 1 1 0
0 1 0 1 0 1
0 0 1 0 1 1
ideal 1
T(3)*T(4)-T(2)*T(5)+T(1)*T(6)
end
gitfan-listing 2
grading 4 6
cones 7
chambers 8
chamber 1
ray 0 0 1 1
ray 0 1 0 1
ray 0 1 1 0
ray 1 1 1 1
weight 1 3 3 3
facet -1 -1 1 1 inner 5 matched
facet -1 1 -1 1 inner 3 matched
facet -1 1 1 -1 inner 2 matched
facet 1 0 0 0 boundary
chamber 2
ray 0 0 1 1
ray 0 1 0 1
ray 1 0 0 1
ray 1 1 1 1
weight 2 2 2 4
facet -1 -1 1 1 inner 6 matched
facet -1 1 -1 1 inner 4 matched
facet 1 -1 -1 1 inner 1 matched
facet 1 1 1 -1 boundary
chamber 3
ray 0 0 1 1
ray 0 1 1 0
ray 1 0 1 0
ray 1 1 1 1
weight 2 2 4 2
facet -1 -1 1 1 inner 7 matched
facet -1 1 1 -1 inner 4 matched
facet 1 -1 1 -1 inner 1 matched
facet 1 1 -1 1 boundary
chamber 4
ray 0 0 1 1
ray 1 0 0 1
ray 1 0 1 0
ray 1 1 1 1
weight 3 1 3 3
facet -1 -1 1 1 inner 8 matched
facet 0 1 0 0 boundary
facet 1 -1 -1 1 inner 3 matched
facet 1 -1 1 -1 inner 2 matched
chamber 5
ray 0 1 0 1
ray 0 1 1 0
ray 1 1 0 0
ray 1 1 1 1
weight 2 4 2 2
facet -1 1 -1 1 inner 7 matched
facet -1 1 1 -1 inner 6 matched
facet 1 -1 1 1 boundary
facet 1 1 -1 -1 inner 1 matched
chamber 6
ray 0 1 0 1
ray 1 0 0 1
ray 1 1 0 0
ray 1 1 1 1
weight 3 3 1 3
facet -1 1 -1 1 inner 8 matched
facet 0 0 1 0 boundary
facet 1 -1 -1 1 inner 5 matched
facet 1 1 -1 -1 inner 2 matched
chamber 7
ray 0 1 1 0
ray 1 0 1 0
ray 1 1 0 0
ray 1 1 1 1
weight 3 3 3 1
facet -1 1 1 -1 inner 8 matched
facet 0 0 0 1 boundary
facet 1 -1 1 -1 inner 5 matched
facet 1 1 -1 -1 inner 3 matched
chamber 8
ray 1 0 0 1
ray 1 0 1 0
ray 1 1 0 0
ray 1 1 1 1
weight 4 2 2 2
facet -1 1 1 1 boundary
facet 1 -1 -1 1 inner 7 matched
facet 1 -1 1 -1 inner 6 matched
facet 1 1 -1 -1 inner 4 matched
end
gitfan-certs 1
faces 19
face 63 free 3
g T(3)*T(4)-T(2)*T(5)+T(1)*T(6)
g -T(1)*T(2)*T(3)*T(4)*T(5)*T(6)*y+1
g -T(1)*T(2)^2*T(5)^2*T(6)*y+T(1)^2*T(2)*T(5)*T(6)^2*y+1
face 62 free 3
g T(3)*T(4)-T(2)*T(5)
g -T(2)*T(3)*T(4)*T(5)*T(6)*y+1
g -T(2)^2*T(5)^2*T(6)*y+1
face 61 free 3
g T(3)*T(4)+T(1)*T(6)
g -T(1)*T(3)*T(4)*T(5)*T(6)*y+1
g T(1)^2*T(5)*T(6)^2*y+1
face 60 monomial 1 1
h T(5)*T(6)
face 59 free 3
g -T(2)*T(5)+T(1)*T(6)
g -T(1)*T(2)*T(4)*T(5)*T(6)*y+1
g -T(1)^2*T(4)*T(6)^2*y+1
face 58 monomial 1 1
h -T(4)*T(6)
face 57 monomial 1 1
h T(4)*T(5)
face 55 free 3
g -T(2)*T(5)+T(1)*T(6)
g -T(1)*T(2)*T(3)*T(5)*T(6)*y+1
g -T(1)^2*T(3)*T(6)^2*y+1
face 54 monomial 1 1
h -T(3)*T(6)
face 53 monomial 1 1
h T(3)*T(5)
face 47 free 3
g T(3)*T(4)+T(1)*T(6)
g -T(1)*T(2)*T(3)*T(4)*T(6)*y+1
g T(1)^2*T(2)*T(6)^2*y+1
face 46 monomial 1 1
h T(2)*T(6)
face 43 monomial 1 1
h T(2)*T(4)
face 39 monomial 1 1
h T(2)*T(3)
face 31 free 3
g T(3)*T(4)-T(2)*T(5)
g -T(1)*T(2)*T(3)*T(4)*T(5)*y+1
g -T(1)*T(2)^2*T(5)^2*y+1
face 29 monomial 1 1
h T(1)*T(5)
face 27 monomial 1 1
h -T(1)*T(4)
face 23 monomial 1 1
h -T(1)*T(3)
face 15 monomial 1 1
h T(1)*T(2)
end
";
