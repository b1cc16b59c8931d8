//! Texts from the tables of another program (tests/vectors.py, by Python's `unicodedata`).

/// A text, and behind the arrow what it folds to, its words, and its numbers.
pub static READINGS: &str = "\
read CAF\u{c9} -> cafe|cafe|
read cafe\u{301} -> cafe|cafe|
read na\u{ef}ve r\u{e9}sum\u{e9} -> naive resume|naive,resume|
read \u{212b}ngstr\u{f6}m -> angstrom|angstrom|
read a\u{301}\u{300}b -> ab|ab|
read \u{1edb} -> o|o|
read o\u{31b}\u{301} -> o|o|
read \u{301} -> ||
read \u{301}\u{300} \u{301} ->  ||
read e\u{20dd} -> e\u{20dd}|e\u{20dd}|
read \u{5d0}\u{5b7}\u{5d1} -> \u{5d0}\u{5b7}\u{5d1}|\u{5d0}\u{5b7}\u{5d1}|
read \u{e44}\u{e17}\u{e22} -> \u{e44}\u{e17}\u{e22}|\u{e44}\u{e17}\u{e22}|
read a\u{315}\u{300}\u{5ae}\u{5bf}b -> a\u{5bf}\u{5ae}b|a\u{5bf}\u{5ae}b|
read a\u{591}\u{34f}\u{5b0} -> a\u{591}\u{5b0}|a\u{591}\u{5b0}|
read a\u{591}\u{5b0} -> a\u{5b0}\u{591}|a\u{5b0}\u{591}|
read Stra\u{df}e -> strasse|strasse|
read STRASSE -> strasse|strasse|
read \u{1e9e} -> ss|ss|
read \u{fb03}x -> ffix|ffix|
read \u{531}\u{587} -> \u{561}\u{565}\u{582}|\u{561}\u{565}\u{582}|
read \u{130}stanbul -> istanbul|istanbul|
read \u{130} -> i|i|
read \u{131} -> \u{131}|\u{131}|
read \u{1c5} \u{1c4} \u{1c6} -> \u{1c6} \u{1c6} \u{1c6}|\u{1c6},\u{1c6},\u{1c6}|
read \u{39f}\u{394}\u{39f}\u{3a3} \u{3bf}\u{3b4}\u{3bf}\u{3c2} -> \u{3bf}\u{3b4}\u{3bf}\u{3c3} \u{3bf}\u{3b4}\u{3bf}\u{3c3}|\u{3bf}\u{3b4}\u{3bf}\u{3c3},\u{3bf}\u{3b4}\u{3bf}\u{3c3}|
read \u{1fb3} \u{3b1}\u{345} -> \u{3b1}\u{3b9} \u{3b1}\u{3b9}|\u{3b1}\u{3b9},\u{3b1}\u{3b9}|
read \u{13a0} \u{ab70} -> \u{13a0} \u{13a0}|\u{13a0},\u{13a0}|
read \u{d55c}\u{ae00} -> \u{1112}\u{1161}\u{11ab}\u{1100}\u{1173}\u{11af}|\u{1112}\u{1161}\u{11ab}\u{1100}\u{1173}\u{11af}|
read \u{1112}\u{1161}\u{11ab}\u{1100}\u{1173}\u{11af} -> \u{1112}\u{1161}\u{11ab}\u{1100}\u{1173}\u{11af}|\u{1112}\u{1161}\u{11ab}\u{1100}\u{1173}\u{11af}|
read \u{4e2d}\u{6587} -> \u{4e2d}\u{6587}|\u{4e2d}\u{6587}|
read \u{f900} -> \u{8c48}|\u{8c48}|
read \u{661}\u{662}\u{663} \u{bd} \u{2167} -> \u{661}\u{662}\u{663} \u{bd} \u{2177}|\u{661}\u{662}\u{663},\u{bd},\u{2177}|
read \u{967}\u{968} 12\u{969}12 -> \u{967}\u{968} 12\u{969}12|\u{967}\u{968},12\u{969}12|12,12
read 1851 c1851 -> 1851 c1851|1851,c1851|1851,1851
read c1851, 007, 1234567890123456789 -> c1851, 007, 1234567890123456789|c1851,007,1234567890123456789|1851,7
read 123456789012345678 1234567890123456789 999999999999999999 -> 123456789012345678 1234567890123456789 999999999999999999|123456789012345678,1234567890123456789,999999999999999999|123456789012345678,999999999999999999
read 000000000000000000 0000000000000000000 -> 000000000000000000 0000000000000000000|000000000000000000,0000000000000000000|0
read 1\u{301}2 -> 12|12|1,2
read x\u{1f600}y -> x\u{1f600}y|x,y|
read 1\u{1f469}2 -> 1\u{1f469}2|1,2|1,2
read \u{1f469}\u{200d}\u{1f680}\u{fe0f} -> \u{1f469}\u{200d}\u{1f680}\u{fe0f}|\u{fe0f}|
read  -> ||
read  ,;:!?  ->  ,;:!? ||
read \u{a0}\u{2003}\u{3000} -> \u{a0}\u{2003}\u{3000}||
read _x_ -> _x_|x|
read or, the whale / -> or, the whale /|or,the,whale|
read don't stop-start -> don't stop-start|don,t,stop,start|
read tab\u{9}new%0aline -> tab\u{9}new%0aline|tab,new,line|
read A#b -> a#b|a,b|
";
